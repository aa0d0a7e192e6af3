//! Several sleep locks, numbered from 0. Each call names the lock by its number.
ghost use Rattle.std.specs.Prelude.{◌≡◌, ◌<◌, ◌↔◌, All, IsTrue, IsOk, IfOk, IfErr, IfSome, length, map};
ghost use Rattle.std.specs.List.{AllZip};
ghost use Rattle.arachne_sleep.specs.History.{IsSound};
ghost use Rattle.arachne_sleep.specs.OneHolder.{HasOneHolderAtATime};
ghost use Rattle.arachne_sleep.specs.Views.{IsWhole, whole_seat, first_half, second_half};
ghost use Rattle.arachne_sleep.specs.Calls.{AskAnswer, FreeAnswer, CheckAnswer, IsToldBy};
ghost use Rattle.arachne_sleep.specs.SleepLocks.{AreSeatsOf, ChangesAt, all_joined};

use crate::answer::{AskFault, Asked, Freed, NotHolder, Pass, Tried};
use crate::history::History;
use crate::lock_seat::LockSeat;
use crate::sleep_lock::SleepLock;
use crate::who::Who;
use std::alloc::{AllocError, Global};
use std::marker::Model;

/// Several sleep locks, numbered from 0, which kernel threads share.
#[derive(Drop)]
pub struct SleepLocks {
    locks: Vec<SleepLock>,
}

impl Model for SleepLocks {
    ghost use Rattle.std.specs.Prelude.{List};
    ghost use Rattle.arachne_sleep.specs.Views.{SleepLockView};
    ghost use Rattle.arachne_sleep.specs.SleepLocks.{AreNumbered};

    ghost Value = { List SleepLockView };

    ghost view = { λ l. l.locks.items };

    ghost invariant = { λ l. AreNumbered l.locks.items };
}

/// A kernel thread's seats (rights to call), one for each of several locks.
#[derive(Drop)]
pub struct LockSeats {
    seats: Vec<LockSeat>,
}

impl Model for LockSeats {
    ghost use Rattle.std.specs.Prelude.{List};
    ghost use Rattle.arachne_sleep.specs.Views.{SeatView};

    ghost Value = { List SeatView };

    ghost view = { λ s. s.seats.items };
}

impl SleepLocks {
    /// Creates `count` locks (0 is allowed), and for each lock its first seat (a right to call).
    pub fn new(alloc: Global, count: u8) -> Result<(SleepLocks, LockSeats), AllocError>
        ensures count { IfOk result (λ made. length made.0 ≡ count) }
        ensures own { IfOk result (λ made. AreSeatsOf made.0 made.1) }
        ensures whole { IfOk result (λ made. All IsWhole made.1) }
        ensures seats { IfOk result (λ made. made.1 ≡ map whole_seat made.0) }
    {
        let mut locks = Vec::with_capacity(alloc, usize::from(count))?;
        let mut seats = Vec::with_capacity(alloc, usize::from(count))?;
        for number in 0..count {
            let (lock, seat) = SleepLock::new(alloc, number)?;
            locks.push(lock)?;
            seats.push(seat)?;
        }
        Ok((SleepLocks { locks }, LockSeats { seats }))
    }

    pub fn count(&self) -> usize
        ensures { result ≡ length self.now }
    {
        self.locks.len()
    }

    /// Asks for the lock with the number `lock`, as [`SleepLock::ask`] does.
    pub fn ask(&self, seats: &mut LockSeats, lock: u8, who: Who) -> Tried<Result<Asked, AskFault>>
        requires own { AreSeatsOf self.now seats.old }
        requires lock { lock < length self.now }
        ensures own { AreSeatsOf self.now seats.new }
        ensures asked { ChangesAt lock seats.old seats.new (λ old new. AskAnswer lock who old result new) }
    {
        let k = usize::from(lock);
        self.locks[k].ask(&mut seats.seats[k], who)
    }

    /// Frees the lock with the number `lock`, as [`SleepLock::free`] does.
    pub fn free(&self, seats: &mut LockSeats, lock: u8, who: Who) -> Tried<Result<Freed, NotHolder>>
        requires own { AreSeatsOf self.now seats.old }
        requires lock { lock < length self.now }
        ensures own { AreSeatsOf self.now seats.new }
        ensures freed { ChangesAt lock seats.old seats.new (λ old new. FreeAnswer lock who old result new) }
    {
        let k = usize::from(lock);
        self.locks[k].free(&mut seats.seats[k], who)
    }

    /// Returns the evidence that `who` holds the lock with the number `lock`, as [`SleepLock::check`] does.
    pub fn check(&self, seats: &mut LockSeats, lock: u8, who: Who) -> Tried<Option<Pass>>
        requires own { AreSeatsOf self.now seats.old }
        requires lock { lock < length self.now }
        ensures own { AreSeatsOf self.now seats.new }
        ensures pass { ChangesAt lock seats.old seats.new (λ old new. CheckAnswer lock who old result new) }
    {
        let k = usize::from(lock);
        self.locks[k].check(&mut seats.seats[k], who)
    }

    /// Splits each seat (a right to call one lock) into two, one for the calling kernel thread and one for another.
    ///
    /// If memory is refused, returns the unchanged seats as an error.
    pub fn split(
        &self,
        alloc: Global,
        seats: LockSeats,
    ) -> Result<(LockSeats, LockSeats), LockSeats>
        requires { AreSeatsOf self.now seats }
        ensures first { IfOk result (λ parts. AreSeatsOf self.now parts.0) }
        ensures second { IfOk result (λ parts. AreSeatsOf self.now parts.1) }
        ensures halves { IfOk result (λ parts. (parts.0 ≡ map first_half seats) × (parts.1 ≡ map second_half seats)) }
        ensures err { IfErr result (λ back. back ≡ seats) }
    {
        let Ok(mut others) = Vec::with_capacity(alloc, self.locks.len()) else {
            return Err(seats);
        };
        let LockSeats { seats: mut own } = seats;
        for k in 0..self.locks.len() {
            others.push_reserved(self.locks[k].split_off(&mut own[k]));
        }
        Ok((LockSeats { seats: own }, LockSeats { seats: others }))
    }

    /// Joins each of `seats` (rights to call) with the seat of `others` that belongs to the same lock.
    pub fn join_seats(&self, seats: LockSeats, others: LockSeats) -> LockSeats
        requires seats { AreSeatsOf self.now seats }
        requires others { AreSeatsOf self.now others }
        ensures own { AreSeatsOf self.now result }
        ensures joined { result ≡ all_joined seats others }
    {
        let LockSeats { seats: mut own } = seats;
        let LockSeats { seats: mut others } = others;
        while let Some(other) = others.pop() {
            let k = others.len();
            self.locks[k].join_into(&mut own[k], other);
        }
        LockSeats { seats: own }
    }

    /// Returns true if each of the seats is the only seat of its lock, since all others were joined into it.
    pub fn are_whole(&self, seats: &LockSeats) -> bool
        ensures { IsTrue result ↔ All IsWhole seats.now }
    {
        seats.seats.iter().all(|seat| seat.is_whole())
    }

    /// Closes all locks. Returns the history of each lock, in the order of the locks.
    ///
    /// Each of the seats must be the only seat of its lock: all others must have been joined into it. If memory for the
    /// list is refused, returns the locks and the seats as an error.
    pub fn close(
        self,
        alloc: Global,
        seats: LockSeats,
    ) -> Result<Vec<History>, (SleepLocks, LockSeats)>
        requires own { AreSeatsOf self seats }
        requires whole { All IsWhole seats }
        ensures count { IfOk result (λ histories. length histories.items ≡ length self) }
        ensures sound { IfOk result (λ histories. All (λ history. IsSound history.items) histories.items) }
        ensures one_holder { IfOk result (λ histories. All (λ history. HasOneHolderAtATime history.items) histories.items) }
        ensures told { IfOk result (λ histories. AllZip (λ seat history. IsToldBy seat.log history.items) seats histories.items) }
        ensures err { IfErr result (λ back. (back.0 ≡ self) × (back.1 ≡ seats)) }
    {
        let count = self.locks.len();
        let Ok(mut histories) = Vec::with_capacity(alloc, count) else {
            return Err((self, seats));
        };
        let SleepLocks { mut locks } = self;
        let LockSeats { mut seats } = seats;
        for _ in 0..count {
            let (Some(lock), Some(seat)) = (locks.pop(), seats.pop()) else {
                unreachable!()
            };
            histories.push_reserved(lock.into_history(seat));
        }
        histories.reverse();
        Ok(histories)
    }
}
