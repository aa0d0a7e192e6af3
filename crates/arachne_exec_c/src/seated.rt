//! The value to which C's handle on locks points.
ghost use Rattle.std.specs.Prelude.{◌≡◌, ◌↔◌, IsTrue, IfOk, IfErr, MatchBool};
ghost use Rattle.std.specs.Option.{ForSome};
ghost use Rattle.std.specs.declared.option.Option.TheVariants.{None, Some};
ghost use Rattle.arachne_lock.specs.Calls.{AskAnswer, FreeAnswer, WithdrawAnswer, CheckAnswer};
ghost use Rattle.arachne_lock.specs.Rule.{IsLawfulSeat};
ghost use Rattle.arachne_exec_c.specs.Seating.{Seating, HasLock, IsNew, IsJoined, with_seat, first_of, second_of, joined_of};

use crate::codes::{DONE, REFUSED};
use arachne_lock::{
    Admitted, AskRefusal, Attempt, LockSetSeat, Locks, NotOwner, Released, Withdrawn,
};
use std::alloc::{AllocError, Global};
use std::marker::Model;
use std::sync::Arc;

/// The value to which C's handle on locks points: a seat (one thread's right to use the locks), and the locks.
#[derive(Drop)]
pub struct Seated {
    locks: Arc<Locks>,
    seat: LockSetSeat,
}

impl Model for Seated {
    ghost use Rattle.std.specs.Arc.{arc_value};
    ghost use Rattle.arachne_lock.specs.Views.{IsSeatOf};
    ghost use Rattle.arachne_exec_c.specs.Seating.{Seating};

    ghost Value = { Seating };

    ghost view = { λ s. record { locks = arc_value s.locks; seat = s.seat } };

    ghost invariant = { λ s. IsSeatOf (arc_value s.locks) s.seat };
}

impl Seated {
    pub(crate) fn new(alloc: Global, count: usize) -> Result<Seated, AllocError>
        ensures { IfOk result (IsNew count) }
    {
        let (locks, seat) = Locks::new(alloc, count)?;
        let locks = Arc::new(alloc, locks)?;
        Ok(Seated { locks, seat })
    }

    pub(crate) fn has(&self, lock: usize) -> bool
        ensures { IsTrue result ↔ HasLock lock self.now }
    {
        lock < self.locks.count()
    }

    pub(crate) fn ask(&mut self, lock: usize, who: u64) -> Attempt<Result<Admitted, AskRefusal>>
        requires { HasLock lock self.old }
        ensures stays { self.new ≡ with_seat self.old self.new.seat }
        ensures answer { AskAnswer lock who self.old.seat result self.new.seat }
        ensures lawful { IsLawfulSeat self.old.locks.count self.new.seat.log }
    {
        self.locks.ask(&mut self.seat, lock, who)
    }

    pub(crate) fn free(&mut self, lock: usize, who: u64) -> Attempt<Result<Released, NotOwner>>
        requires { HasLock lock self.old }
        ensures stays { self.new ≡ with_seat self.old self.new.seat }
        ensures answer { FreeAnswer lock who self.old.seat result self.new.seat }
        ensures lawful { IsLawfulSeat self.old.locks.count self.new.seat.log }
    {
        self.locks.free(&mut self.seat, lock, who)
    }

    pub(crate) fn withdraw(&mut self, lock: usize, who: u64) -> Attempt<Withdrawn>
        requires { HasLock lock self.old }
        ensures stays { self.new ≡ with_seat self.old self.new.seat }
        ensures answer { WithdrawAnswer lock who self.old.seat result self.new.seat }
        ensures lawful { IsLawfulSeat self.old.locks.count self.new.seat.log }
    {
        self.locks.withdraw(&mut self.seat, lock, who)
    }

    pub(crate) fn check(&mut self, lock: usize, who: u64) -> Attempt<Option<u64>>
        requires { HasLock lock self.old }
        ensures stays { self.new ≡ with_seat self.old self.new.seat }
        ensures answer { CheckAnswer lock who self.old.seat result self.new.seat }
        ensures lawful { IsLawfulSeat self.old.locks.count self.new.seat.log }
    {
        self.locks.check(&mut self.seat, lock, who)
    }

    /// Splits off a seat, or changes nothing and returns an error if the locks' reference count can't grow.
    fn split(&mut self) -> Result<Seated, AllocError>
        ensures ok { IfOk result (λ other. (self.new ≡ first_of self.old) × (other ≡ second_of self.old)) }
        ensures err { IfErr result (λ _. self.new ≡ self.old) }
    {
        let locks = Arc::try_clone(&self.locks)?;
        let seat = self.locks.split(&mut self.seat);
        Ok(Seated { locks, seat })
    }

    fn join(&mut self, other: Seated)
        requires { other.locks ≡ self.old.locks }
        ensures { self.new ≡ joined_of self.old other }
    {
        let Seated { locks: _, seat } = other;
        self.locks.join(&mut self.seat, seat);
    }
}

/// Splits the seat in `mine`, and puts the new seat into `theirs`.
///
/// Returns false, and changes nothing, if `mine` is empty or if the locks' reference count can't grow.
pub(crate) fn split_held(mine: &mut Option<Seated>, theirs: &mut Option<Seated>) -> bool
    requires { theirs.old ≡ None }
    ensures split { ForSome mine.old (λ old. MatchBool result
        ((mine.new ≡ Some (first_of old)) × (theirs.new ≡ Some (second_of old)))
        ((mine.new ≡ mine.old) × (theirs.new ≡ None))) }
    ensures nothing { mine.old ≡ None → (mine.new ≡ None) × (theirs.new ≡ None) }
{
    let Some(seated) = mine else {
        return false;
    };
    let Ok(part) = seated.split() else {
        return false;
    };
    *theirs = Some(part);
    true
}

/// Joins the seat in `theirs` into the one in `mine`, and returns DONE, or REFUSED if either of them is empty.
pub(crate) fn join_held(mine: &mut Option<Seated>, theirs: &mut Option<Seated>) -> u32
    requires { (a b : Seating) → mine.old ≡ Some a → theirs.old ≡ Some b → b.locks ≡ a.locks }
    ensures { IsJoined mine.old theirs.old mine.new theirs.new result }
{
    match (mine.take(), theirs.take()) {
        (Some(mut seated), Some(spent)) => {
            seated.join(spent);
            *mine = Some(seated);
            DONE
        }
        (old, other) => {
            *mine = old;
            *theirs = other;
            REFUSED
        }
    }
}
