//! The value to which C's handle on ledgers (counters) points: a share (a thread's right to add), with its ledgers.
ghost use Rattle.std.specs.Prelude.{◌≡◌, ◌↔◌, IfOk, IfErr, IfSome, IfNone, IsSome, MatchBool, IsTrue};
ghost use Rattle.std.specs.Option.{ForSome};
ghost use Rattle.std.specs.declared.option.Option.TheVariants.{None, Some};
ghost use Rattle.arachne_exec_c.specs.Adder.{Adder, IsJoined, IsNew, HasLedger, MayRead, total_of, with_amount, with_reading, first_of, second_of, joined_with};

use arachne_ledger::{Ledgers, Share};
use std::alloc::{AllocError, Global};
use std::marker::Model;
use std::sync::Arc;

/// The value to which C's handle on ledgers points: a share (a thread's right to add), and the ledgers.
#[derive(Drop)]
pub struct Adding {
    ledgers: Arc<Ledgers>,
    share: Share,
}

impl Model for Adding {
    ghost use Rattle.std.specs.Arc.{arc_value};
    ghost use Rattle.arachne_ledger.specs.Views.{IsShareOf};
    ghost use Rattle.arachne_exec_c.specs.Adder.{Adder};

    ghost Value = { Adder };

    ghost view = { λ a. record { ledgers = arc_value a.ledgers; share = a.share } };

    ghost invariant = { λ a. IsShareOf (arc_value a.ledgers) a.share };
}

impl Adding {
    /// Creates `count` ledgers, each of total 0, and returns their first share (a right to add).
    ///
    /// A split halves a share's weight, and totals can be read only with the whole.
    pub(crate) fn new(alloc: Global, count: usize) -> Result<Adding, AllocError>
        ensures { IfOk result (IsNew count) }
    {
        let (ledgers, share) = Ledgers::new(alloc, count)?;
        let ledgers = Arc::new(alloc, ledgers)?;
        Ok(Adding { ledgers, share })
    }

    pub(crate) fn has(&self, ledger: usize) -> bool
        ensures { IsTrue result ↔ HasLedger ledger self.now }
    {
        ledger < self.ledgers.count()
    }

    pub(crate) fn add(&mut self, ledger: usize, amount: u64)
        requires { HasLedger ledger self.old }
        ensures { self.new ≡ with_amount ledger amount self.old }
    {
        self.ledgers.add(&mut self.share, ledger, amount);
    }

    /// Returns the sum of all amounts added to `ledger`.
    ///
    /// Returns `None` if another share (a right to add) wasn't joined into this one, or if there is no such ledger.
    pub(crate) fn total(&mut self, ledger: usize) -> Option<u64>
        ensures read { IsSome result ↔ MayRead ledger self.old }
        ensures some { IfSome result (λ total. (total ≡ total_of ledger self.old) × (self.new ≡ with_reading ledger self.old)) }
        ensures none { IfNone result (self.new ≡ self.old) }
    {
        if !self.has(ledger) || !self.share.is_whole() {
            return None;
        }
        Some(self.ledgers.read(&mut self.share, ledger))
    }

    /// Splits the share (a right to add), or returns it as the error if the ledgers' reference count can't grow.
    pub(crate) fn split(self) -> Result<(Adding, Adding), Adding>
        ensures ok { IfOk result (λ parts. (parts.0 ≡ first_of self) × (parts.1 ≡ second_of self)) }
        ensures err { IfErr result (λ same. same ≡ self) }
    {
        let Ok(theirs) = Arc::try_clone(&self.ledgers) else {
            return Err(self);
        };
        let Adding { ledgers, share } = self;
        let (share, second) = ledgers.split(share);
        let other = Adding {
            ledgers: theirs,
            share: second,
        };
        Ok((Adding { ledgers, share }, other))
    }

    pub(crate) fn join(self, other: Adding) -> Adding
        requires { other.ledgers.table ≡ self.ledgers.table }
        ensures { result ≡ joined_with self other }
    {
        let Adding { ledgers, share } = self;
        let Adding {
            ledgers: _,
            share: spent,
        } = other;
        let share = ledgers.join_shares(share, spent);
        Adding { ledgers, share }
    }
}

/// Splits the share (a right to add) in `mine`, and puts the second half into `theirs`.
///
/// Returns false, and changes nothing, if `mine` is empty or if the ledgers' reference count can't grow.
pub(crate) fn cut(mine: &mut Option<Adding>, theirs: &mut Option<Adding>) -> bool
    requires { theirs.old ≡ None }
    ensures cut { ForSome mine.old (λ old. MatchBool result
        ((mine.new ≡ Some (first_of old)) × (theirs.new ≡ Some (second_of old)))
        ((mine.new ≡ mine.old) × (theirs.new ≡ None))) }
    ensures nothing { mine.old ≡ None → (mine.new ≡ None) × (theirs.new ≡ None) }
{
    let Some(adding) = mine.take() else {
        return false;
    };
    match adding.split() {
        Ok((first, second)) => {
            (*mine, *theirs) = (Some(first), Some(second));
            true
        }
        Err(same) => {
            *mine = Some(same);
            false
        }
    }
}

/// Joins the share (a right to add) in `theirs` into the one in `mine`.
///
/// Returns false, and changes nothing, if either of them is empty.
pub(crate) fn join_held(mine: &mut Option<Adding>, theirs: &mut Option<Adding>) -> bool
    requires { (a b : Adder) → mine.old ≡ Some a → theirs.old ≡ Some b → b.ledgers.table ≡ a.ledgers.table }
    ensures { IsJoined mine.old theirs.old mine.new theirs.new result }
{
    match (mine.take(), theirs.take()) {
        (Some(adding), Some(spent)) => {
            *mine = Some(adding.join(spent));
            true
        }
        (old, other) => {
            *mine = old;
            *theirs = other;
            false
        }
    }
}
