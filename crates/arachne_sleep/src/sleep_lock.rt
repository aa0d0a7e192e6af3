//! A sleep lock that kernel threads share. If a call finds another kernel thread in a call on the lock, it returns at
//! once.
ghost use Rattle.std.specs.Prelude.{◌≡◌, ◌↔◌, List, MatchBool, IsTrue, IsOk, IfOk, None, [], ◌∷◌};
ghost use Rattle.arachne_sleep.specs.declared.event.LockEvent.{LockEvent};
ghost use Rattle.arachne_sleep.specs.History.{IsSound};
ghost use Rattle.arachne_sleep.specs.OneHolder.{HasOneHolderAtATime};
ghost use Rattle.arachne_sleep.specs.Logs.{contended_log, given_back_log};
ghost use Rattle.arachne_sleep.specs.Rule.{IsFirstSlot, IsLawfulEnd};
ghost use Rattle.arachne_sleep.specs.Steps.{idle, HasTaken, HasSlot, HasVisited, IsReturnable};
ghost use Rattle.arachne_sleep.specs.Views.{Guarded, IsSeatOf, IsWhole, whole_seat, first_half, second_half, joined_with};
ghost use Rattle.arachne_sleep.specs.Calls.{IsAsked, IsFreed, IsChecked, pass_asked, AskAnswer, FreeAnswer, CheckAnswer, IsToldBy};

use crate::answer::{AskFault, Asked, Freed, NotHolder, Pass, Tried};
use crate::guarded_state::GuardedState;
use crate::history::History;
use crate::lock_seat::LockSeat;
use crate::steps::{Deal, GiveBack, GuardRule, Take};
use crate::view::View;
use crate::who::Who;
use arachne_weights::Weight;
use atomic_table::{Seat, Table};
use std::alloc::{AllocError, Global};
use std::marker::Model;

/// The number of words of a lock's table. Processors fetch cache lines in pairs, so there are two lines of unused words
/// on each side of the lock's atomic word.
const WORDS: usize = 32;

/// The index of the lock's atomic word.
const GUARD: usize = 16;

/// The value of the lock's atomic word while no call on the lock is in progress.
const HOME: u64 = 0;

/// The value of the lock's atomic word during a call on the lock.
const TAKEN: u64 = 1;

/// A sleep lock that kernel threads share, each through a seat (a right to call) of its own.
///
/// The lock has an atomic word (the *guard word*), which is 1 during a call, and otherwise 0. `ask`, `free` and `check`
/// try once to set this word. If the word is already set, such a call returns `Contended`, and changes nothing.
#[derive(Drop)]
pub struct SleepLock {
    number: u8,
    table: Table<GuardedState, View, u8, GuardRule, Global>,
}

// Contracts describe a lock by its number and its table.
impl Model for SleepLock {
    ghost use Rattle.arachne_sleep.specs.Views.{SleepLockView, IsLaidOut};

    ghost Value = { SleepLockView };

    ghost view = { λ l. record { table = l.table.shared.table_id; number = l.number } };

    ghost invariant = { λ l. IsLaidOut l.table.shared.table_id l.table.shared.key l.number };
}

fn first_slots(alloc: Global, number: u8) -> Result<Vec<GuardedState>, AllocError>
    ensures { IfOk result (λ slots. IsFirstSlot number slots.items) }
{
    let mut slots = Vec::with_capacity(alloc, 1)?;
    slots.push(GuardedState::new(alloc, number))?;
    Ok(slots)
}

impl SleepLock {
    /// Creates a lock with the number `lock`, for which nobody has asked yet, and its first seat (a right to call).
    ///
    /// Each seat has a *weight*. The first seat has the whole, a split halves a weight, and a join adds two weights. So
    /// a seat with the whole weight is the only one left, as `close` requires.
    pub fn new(alloc: Global, lock: u8) -> Result<(SleepLock, LockSeat), AllocError>
        ensures number { IfOk result (λ made. made.0.number ≡ lock) }
        ensures seat { IfOk result (λ made. made.1 ≡ whole_seat made.0) }
    {
        let slots = first_slots(alloc, lock)?;
        let Ok((table, seat)) = Table::new(alloc, &[HOME; WORDS], slots, &lock) else {
            return Err(AllocError);
        };
        let weight = Weight::whole();
        Ok((
            SleepLock {
                number: lock,
                table,
            },
            LockSeat { seat, weight },
        ))
    }

    /// Asks for the lock for the user thread `who`. If nobody holds it, `who` gets it at once, and otherwise waits.
    ///
    /// Returns `AlreadyIn` if `who` already holds the lock or waits for it. If memory is refused, nothing changes.
    pub fn ask(&self, seat: &mut LockSeat, who: Who) -> Tried<Result<Asked, AskFault>>
        requires { IsSeatOf self.now seat.old }
        ensures seat { IsSeatOf self.now seat.new × (seat.new.weight ≡ seat.old.weight) }
        ensures answer { AskAnswer self.now.number who seat.old result seat.new }
    {
        if !self.take(&mut seat.seat) {
            return Tried::Contended;
        }
        let answer = self.ask_guarded(&mut seat.seat, who);
        self.give_back(&mut seat.seat);
        Tried::Answered(answer)
    }

    /// Frees the lock, and grants it to the thread that has waited longest, if any thread waits.
    ///
    /// Returns `NotHolder` if `who` doesn't hold the lock.
    pub fn free(&self, seat: &mut LockSeat, who: Who) -> Tried<Result<Freed, NotHolder>>
        requires { IsSeatOf self.now seat.old }
        ensures seat { IsSeatOf self.now seat.new × (seat.new.weight ≡ seat.old.weight) }
        ensures answer { FreeAnswer self.now.number who seat.old result seat.new }
    {
        if !self.take(&mut seat.seat) {
            return Tried::Contended;
        }
        let answer = self.free_guarded(&mut seat.seat, who);
        self.give_back(&mut seat.seat);
        Tried::Answered(answer)
    }

    /// Returns the evidence that the user thread `who` holds the lock, or `None` if `who` doesn't hold the lock.
    pub fn check(&self, seat: &mut LockSeat, who: Who) -> Tried<Option<Pass>>
        requires { IsSeatOf self.now seat.old }
        ensures seat { IsSeatOf self.now seat.new × (seat.new.weight ≡ seat.old.weight) }
        ensures answer { CheckAnswer self.now.number who seat.old result seat.new }
    {
        if !self.take(&mut seat.seat) {
            return Tried::Contended;
        }
        let answer = self.check_guarded(&mut seat.seat, who);
        self.give_back(&mut seat.seat);
        Tried::Answered(answer)
    }

    /// Splits a seat (a right to call) into two, each with half of its weight, rounded up for the first.
    ///
    /// The first seat keeps the log of `seat`. The second seat's log has only the histories that `seat` has read. If
    /// the weight is 1 or 0, both seats get weight 0, and the lock can never be closed.
    pub fn split(&self, seat: LockSeat) -> (LockSeat, LockSeat)
        requires { IsSeatOf self.now seat }
        ensures first { result.0 ≡ first_half seat }
        ensures second { result.1 ≡ second_half seat }
    {
        let mut seat = seat;
        let other = self.split_off(&mut seat);
        (seat, other)
    }

    pub(crate) fn split_off(&self, seat: &mut LockSeat) -> LockSeat
        requires { IsSeatOf self.now seat.old }
        ensures first { seat.new ≡ first_half seat.old }
        ensures second { result ≡ second_half seat.old }
    {
        let (first, second) = seat.weight.split();
        let other = self.table.shared.split_seat::<Deal>(&mut seat.seat);
        seat.weight = first;
        LockSeat {
            seat: other,
            weight: second,
        }
    }

    /// Joins two seats (rights to call) into one, which has the logs and the weights of both.
    pub fn join_seats(&self, seat: LockSeat, other: LockSeat) -> LockSeat
        requires seat { IsSeatOf self.now seat }
        requires other { IsSeatOf self.now other }
        ensures { result ≡ joined_with seat other }
    {
        let mut seat = seat;
        self.join_into(&mut seat, other);
        seat
    }

    pub(crate) fn join_into(&self, seat: &mut LockSeat, other: LockSeat)
        requires seat { IsSeatOf self.now seat.old }
        requires other { IsSeatOf self.now other }
        ensures { seat.new ≡ joined_with seat.old other }
    {
        let LockSeat {
            seat: spent,
            weight: added,
        } = other;
        self.table.shared.join_seat::<Deal>(&mut seat.seat, spent);
        seat.weight = seat.weight.join(added);
    }

    /// Returns true if `seat` is the lock's only seat, since all others were joined into it.
    pub fn is_whole(&self, seat: &LockSeat) -> bool
        ensures { IsTrue result ↔ IsWhole seat.now }
    {
        seat.is_whole()
    }

    /// Closes the lock. Returns all asks, grants and frees of the lock, oldest first. Does not allocate.
    ///
    /// `seat` must be the lock's only seat: all others must have been joined into it.
    pub fn close(self, seat: LockSeat) -> Result<History, (SleepLock, LockSeat)>
        requires own { IsSeatOf self seat }
        requires whole { IsWhole seat }
        ensures closed { IsOk result }
        ensures sound { IfOk result (λ history. IsSound history.items) }
        ensures one_holder { IfOk result (λ history. HasOneHolderAtATime history.items) }
        ensures told { IfOk result (λ history. IsToldBy seat.log history.items) }
        ensures lawful { IfOk result (λ history. IsLawfulEnd self.number seat) }
    {
        Ok(self.into_history(seat))
    }

    pub(crate) fn into_history(self, seat: LockSeat) -> History
        requires own { IsSeatOf self seat }
        requires whole { IsWhole seat }
        ensures sound { IsSound result.items }
        ensures told { IsToldBy seat.log result.items }
        ensures lawful { IsLawfulEnd self.number seat }
    {
        let SleepLock { table, number: _ } = self;
        let LockSeat { seat, weight: _ } = seat;
        let mut closed = table.close_with(seat);
        let guarded = closed.take(0);
        closed.free();
        guarded.into_history()
    }

    /// Tries once to take the lock's state out of the table, and returns true on success.
    fn take(&self, seat: &mut Seat<GuardedState, View>) -> bool
        requires own { seat.old.table_id ≡ self.now.table }
        requires idle { seat.old.me ≡ idle seat.old.me.0.weight seat.old.me.0.known.log }
        ensures own { seat.new.table_id ≡ seat.old.table_id }
        ensures told { MatchBool result
            (HasTaken seat.old.me.0.weight seat.old.me.0.known.log seat.new.me)
            (seat.new.me ≡ idle seat.old.me.0.weight (contended_log seat.old.me.0.known.log)) }
    {
        let shared = &self.table.shared;
        shared.compare_exchange::<Take>(seat, GUARD, HOME, TAKEN) == HOME
    }

    fn give_back(&self, seat: &mut Seat<GuardedState, View>)
        requires own { seat.old.table_id ≡ self.now.table }
        requires guarded { (guarded : Guarded) × (before : List LockEvent) × IsReturnable seat.old.me guarded before }
        ensures own { seat.new.table_id ≡ seat.old.table_id }
        ensures told { (guarded : Guarded) → seat.old.me.1 ≡ (0, guarded) ∷ []
            → seat.new.me ≡ idle seat.old.me.0.weight (given_back_log seat.old.me.0.known.log guarded.state.history guarded.last_pass) }
    {
        self.table.shared.store::<GiveBack>(seat, GUARD, HOME);
    }

    fn ask_guarded(&self, seat: &mut Seat<GuardedState, View>, who: Who) -> Result<Asked, AskFault>
        requires { HasSlot self.now seat.old.table_id seat.old.me }
        ensures asked { HasVisited seat.old.table_id seat.new.table_id seat.old.me seat.new.me (λ old new. IsAsked old new who result) (pass_asked result) }
    {
        seat.slot_mut(&self.table.shared, 0).ask(who)
    }

    fn free_guarded(
        &self,
        seat: &mut Seat<GuardedState, View>,
        who: Who,
    ) -> Result<Freed, NotHolder>
        requires { HasSlot self.now seat.old.table_id seat.old.me }
        ensures freed { HasVisited seat.old.table_id seat.new.table_id seat.old.me seat.new.me (λ old new. IsFreed old new who result) None }
    {
        seat.slot_mut(&self.table.shared, 0).free(who)
    }

    fn check_guarded(&self, seat: &mut Seat<GuardedState, View>, who: Who) -> Option<Pass>
        requires { HasSlot self.now seat.old.table_id seat.old.me }
        ensures checked { HasVisited seat.old.table_id seat.new.table_id seat.old.me seat.new.me (λ old new. IsChecked old new who result) result }
    {
        seat.slot_mut(&self.table.shared, 0).check(who)
    }
}
