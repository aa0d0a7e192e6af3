//! A set of locks that kernel threads share. If a call finds another kernel thread in a call on the same lock, it
//! returns at once.
ghost use Rattle.std.specs.Prelude.{◌≡◌, ◌<◌, ℕ, List, MatchBool, IsFalse, IfOk, Option, [], ◌∷◌, ◌^◌, vec_len, slice_index};
ghost use Rattle.arachne_lock.specs.declared.event.QueueEvent.{QueueEvent};
ghost use Rattle.arachne_lock.specs.State.{IsAsked, IsFreed, IsWithdrawn, IsChecked};
ghost use Rattle.arachne_lock.specs.Deeds.{asked_events, freed_events, withdrawn_events};
ghost use Rattle.arachne_lock.specs.Logs.{contended_log};
ghost use Rattle.arachne_lock.specs.Views.{Guarded, IsSeatOf, IsLockAt, first_seat, first_half, second_half, joined_with, word_of};
ghost use Rattle.arachne_lock.specs.Rule.{AreFirstSlots, IsLawfulSeat};
ghost use Rattle.arachne_lock.specs.Steps.{idle, HasTaken, HasSlot, HasVisited, IsReturnable, IsReturned};
ghost use Rattle.arachne_lock.specs.Calls.{AskAnswer, FreeAnswer, WithdrawAnswer, CheckAnswer};

use crate::answer::{Admitted, AskRefusal, Attempt, NotOwner, Released, Withdrawn};
use crate::guarded_lock::GuardedLock;
use crate::lock_set_seat::LockSetSeat;
use crate::steps::{Divide, LockRule, ReturnGuard, TakeGuard};
use crate::view::KnownLocks;
use atomic_table::{Seat, Table};
use std::alloc::{AllocError, Global};
use std::marker::Model;

/// The number of words in two cache lines, which processors fetch together.
const SPACING: usize = 16;

/// The value of a lock's atomic word while no call on the lock is in progress.
const HOME: u64 = 0;

/// The value of a lock's atomic word during a call on the lock.
const TAKEN: u64 = 1;

/// A set of locks that kernel threads share, each through a seat (a right to call) of its own.
///
/// Each lock has an atomic word (the *guard word*), which is 1 during a call on the lock, and otherwise 0. `ask`,
/// `free`, `withdraw` and `check` try once to set this word. If the word is already set, such a call returns
/// `Contended`, and changes nothing. The host (the program that uses the locks) chooses a number for each task.
#[derive(Drop)]
pub struct Locks {
    table: Table<GuardedLock, KnownLocks, usize, LockRule, Global>,
    count: usize,
}

// Contracts describe a set of locks by its table, and the number of locks.
impl Model for Locks {
    ghost use Rattle.arachne_lock.specs.Views.{LocksView, IsLaidOut};

    ghost Value = { LocksView };

    ghost view = { λ l. record { table = l.table.shared.table_id; count = l.count } };

    ghost invariant = { λ l. IsLaidOut l.table.shared.table_id l.table.shared.key l.count };
}

fn guard_word(lock: usize) -> usize
    requires { word_of lock < 2 ^ 64 }
    ensures { result ≡ word_of lock }
{
    SPACING * (lock + 1)
}

fn first_words(alloc: Global, count: usize) -> Result<Vec<u64>, AllocError>
    ensures { IfOk result (λ v. (vec_len v ≡ word_of count) × ((i : ℕ) → slice_index v.items i ≡ 0)) }
{
    let room = SPACING.saturating_mul(count.saturating_add(1));
    let mut words = Vec::with_capacity(alloc, room)?;
    words.extend_from_slice(&[HOME; SPACING])?;
    for _ in 0..count {
        words.extend_from_slice(&[HOME; SPACING])?;
    }
    Ok(words)
}

fn first_slots(alloc: Global, count: usize) -> Result<Vec<GuardedLock>, AllocError>
    ensures { IfOk result (λ slots. AreFirstSlots count slots.items) }
{
    let mut slots = Vec::with_capacity(alloc, count)?;
    for _ in 0..count {
        slots.push(GuardedLock::new(alloc))?;
    }
    Ok(slots)
}

impl Locks {
    /// Creates `count` locks (0 is allowed), for which nobody has asked yet, and their first seat (a right to call).
    /// Returns an error if memory is refused.
    pub fn new(alloc: Global, count: usize) -> Result<(Locks, LockSetSeat), AllocError>
        ensures count { IfOk result (λ made. made.0.count ≡ count) }
        ensures seat { IfOk result (λ made. made.1 ≡ first_seat made.0) }
    {
        let words = first_words(alloc, count)?;
        let slots = first_slots(alloc, count)?;
        let Ok((table, seat)) = Table::new(alloc, words.as_slice(), slots, &count) else {
            return Err(AllocError);
        };
        Ok((Locks { table, count }, LockSetSeat { seat }))
    }

    pub fn count(&self) -> usize
        ensures { result ≡ self.now.count }
    {
        self.count
    }

    /// Asks for a lock for the task `who`. If nobody holds the lock, the task gets it at once, and otherwise waits.
    ///
    /// Returns `AlreadyIn` if the task already holds the lock or waits for it. Only a task that must wait needs memory,
    /// whose refusal changes nothing.
    pub fn ask(
        &self,
        seat: &mut LockSetSeat,
        lock: usize,
        who: u64,
    ) -> Attempt<Result<Admitted, AskRefusal>>
        requires { IsLockAt self.now seat.old.table lock }
        ensures own { IsSeatOf self.now seat.new }
        ensures answer { AskAnswer lock who seat.old result seat.new }
        ensures lawful { IsLawfulSeat self.now.count seat.new.log }
    {
        if !self.take(&mut seat.seat, lock) {
            return Attempt::Contended;
        }
        let answer = self.ask_guarded(&mut seat.seat, lock, who);
        self.give_back(&mut seat.seat, lock);
        Attempt::Answered(answer)
    }

    /// Frees a lock that the task `who` holds, and grants it to the task that has waited longest, if any task waits.
    ///
    /// Returns `NotOwner` if `who` doesn't hold the lock.
    pub fn free(
        &self,
        seat: &mut LockSetSeat,
        lock: usize,
        who: u64,
    ) -> Attempt<Result<Released, NotOwner>>
        requires { IsLockAt self.now seat.old.table lock }
        ensures own { IsSeatOf self.now seat.new }
        ensures answer { FreeAnswer lock who seat.old result seat.new }
        ensures lawful { IsLawfulSeat self.now.count seat.new.log }
    {
        if !self.take(&mut seat.seat, lock) {
            return Attempt::Contended;
        }
        let answer = self.free_guarded(&mut seat.seat, lock, who);
        self.give_back(&mut seat.seat, lock);
        Attempt::Answered(answer)
    }

    /// Removes the task `who` from the queue of a lock, for example because the task's future is dropped.
    ///
    /// Returns `Holds` if the task already holds the lock. The caller must then free the lock.
    pub fn withdraw(&self, seat: &mut LockSetSeat, lock: usize, who: u64) -> Attempt<Withdrawn>
        requires { IsLockAt self.now seat.old.table lock }
        ensures own { IsSeatOf self.now seat.new }
        ensures answer { WithdrawAnswer lock who seat.old result seat.new }
        ensures lawful { IsLawfulSeat self.now.count seat.new.log }
    {
        if !self.take(&mut seat.seat, lock) {
            return Attempt::Contended;
        }
        let answer = self.withdraw_guarded(&mut seat.seat, lock, who);
        self.give_back(&mut seat.seat, lock);
        Attempt::Answered(answer)
    }

    /// Returns the event number of the grant of a lock to the task `who`, or `None` if `who` doesn't hold the lock.
    pub fn check(&self, seat: &mut LockSetSeat, lock: usize, who: u64) -> Attempt<Option<u64>>
        requires { IsLockAt self.now seat.old.table lock }
        ensures own { IsSeatOf self.now seat.new }
        ensures answer { CheckAnswer lock who seat.old result seat.new }
        ensures lawful { IsLawfulSeat self.now.count seat.new.log }
    {
        if !self.take(&mut seat.seat, lock) {
            return Attempt::Contended;
        }
        let answer = self.check_guarded(&mut seat.seat, lock, who);
        self.give_back(&mut seat.seat, lock);
        Attempt::Answered(answer)
    }

    /// Splits off a seat (a right to call) for another kernel thread.
    pub fn split(&self, seat: &mut LockSetSeat) -> LockSetSeat
        requires { IsSeatOf self.now seat.old }
        ensures first { seat.new ≡ first_half seat.old }
        ensures second { result ≡ second_half seat.old }
    {
        let other = self.table.shared.split_seat::<Divide>(&mut seat.seat);
        LockSetSeat { seat: other }
    }

    /// Joins the seat `other` (another kernel thread's right to call) into `seat`.
    pub fn join(&self, seat: &mut LockSetSeat, other: LockSetSeat)
        requires seat { IsSeatOf self.now seat.old }
        requires other { IsSeatOf self.now other }
        ensures { seat.new ≡ joined_with seat.old other }
    {
        let LockSetSeat { seat: spent } = other;
        self.table.shared.join_seat::<Divide>(&mut seat.seat, spent);
    }

    /// Tries once to take a lock's state out of the table, and returns true on success.
    fn take(&self, seat: &mut Seat<GuardedLock, KnownLocks>, lock: usize) -> bool
        requires at { IsLockAt self.now seat.old.table_id lock }
        requires idle { seat.old.me ≡ idle seat.old.me.0.log }
        ensures own { seat.new.table_id ≡ seat.old.table_id }
        ensures told { MatchBool result
            (HasTaken lock seat.old.me.0.log seat.new.me)
            (seat.new.me ≡ idle (contended_log seat.old.me.0.log lock)) }
        ensures lawful { IsFalse result → IsLawfulSeat self.now.count (contended_log seat.old.me.0.log lock) }
    {
        let shared = &self.table.shared;
        shared.compare_exchange::<TakeGuard>(seat, guard_word(lock), HOME, TAKEN) == HOME
    }

    fn give_back(&self, seat: &mut Seat<GuardedLock, KnownLocks>, lock: usize)
        requires at { IsLockAt self.now seat.old.table_id lock }
        requires guarded { (history : List QueueEvent) × (guarded : Guarded) × IsReturnable lock history seat.old.me guarded }
        ensures own { seat.new.table_id ≡ seat.old.table_id }
        ensures told { IsReturned lock seat.old.me seat.new.me }
        ensures lawful { IsLawfulSeat self.now.count seat.new.me.0.log }
    {
        let shared = &self.table.shared;
        shared.store::<ReturnGuard>(seat, guard_word(lock), HOME);
    }

    fn ask_guarded(
        &self,
        seat: &mut Seat<GuardedLock, KnownLocks>,
        lock: usize,
        who: u64,
    ) -> Result<Admitted, AskRefusal>
        requires { HasSlot self.now seat.old.table_id seat.old.me lock }
        ensures asked { HasVisited lock seat.old.table_id seat.new.table_id seat.old.me seat.new.me (λ old new. IsAsked old new who result) (asked_events who result) }
    {
        seat.slot_mut(&self.table.shared, lock).ask(who)
    }

    fn free_guarded(
        &self,
        seat: &mut Seat<GuardedLock, KnownLocks>,
        lock: usize,
        who: u64,
    ) -> Result<Released, NotOwner>
        requires { HasSlot self.now seat.old.table_id seat.old.me lock }
        ensures freed { HasVisited lock seat.old.table_id seat.new.table_id seat.old.me seat.new.me (λ old new. IsFreed old new who result) (freed_events who result) }
    {
        seat.slot_mut(&self.table.shared, lock).free(who)
    }

    fn withdraw_guarded(
        &self,
        seat: &mut Seat<GuardedLock, KnownLocks>,
        lock: usize,
        who: u64,
    ) -> Withdrawn
        requires { HasSlot self.now seat.old.table_id seat.old.me lock }
        ensures withdrawn { HasVisited lock seat.old.table_id seat.new.table_id seat.old.me seat.new.me (λ old new. IsWithdrawn old new who result) (withdrawn_events who result) }
    {
        seat.slot_mut(&self.table.shared, lock).withdraw(who)
    }

    fn check_guarded(
        &self,
        seat: &mut Seat<GuardedLock, KnownLocks>,
        lock: usize,
        who: u64,
    ) -> Option<u64>
        requires { HasSlot self.now seat.old.table_id seat.old.me lock }
        ensures checked { HasVisited lock seat.old.table_id seat.new.table_id seat.old.me seat.new.me (λ old new. IsChecked old new who result) [] }
    {
        seat.slot_mut(&self.table.shared, lock).check(who)
    }
}
