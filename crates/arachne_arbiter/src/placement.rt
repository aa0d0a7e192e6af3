//! Claims room for a new thread: a thread slot of a core, or a whole empty core.
ghost use Rattle.std.specs.Prelude.{◌≡◌, ◌≢◌, ◌<◌, ◌≤◌};
ghost use Rattle.rand_core.specs.Stream.{next_u64};
ghost use Rattle.arachne_contexts.specs.Out.{KeepsOut};
ghost use Rattle.arachne_arbiter.specs.Placed.{GetsPlace, IsOnCore, IsOnSomeCore, IsAtStartOf, IsAtStartOfSome};

use crate::choice::{first_core, has_place};
use crate::cores::Cores;
use arachne_contexts::{Contexts, Tagged};
use arachne_core::{CORES, OccWord};
use rand_core::Rng;
use std::alloc::AllocError;
use std::sync::Wait;

impl<'a, H: Wait, T: Tagged, C: Contexts<T>> Cores<'a, H, T, C> {
    /// Claims a thread slot for a thread that shares its core with others. Returns `None` if no core has a free slot.
    ///
    /// Takes a slot of the emptier of two random cores, or of the first other core that has one. Returns `Err` if
    /// memory for the thread is refused. Always draws exactly one word from the random generator `chooser`.
    pub fn claim_normal<R: Rng>(
        &self,
        seat: &mut C::Seat,
        chooser: &mut R,
    ) -> Result<Option<C::Claim>, AllocError>
        requires { C.sits self.now.table.now seat.old }
        ensures seat { C.sits self.now.table.now seat.new }
        ensures weight { C.weight seat.new ≡ C.weight seat.old }
        ensures out { GetsPlace (C.has self.now.table.now) seat.old seat.new result }
        ensures place { IsOnSomeCore C.Claim.place_of (C.core_count self.now.table.now) result }
        ensures drawn { R.stream chooser.new ≡ (next_u64 (R.stream chooser.old)).1 }
    {
        let word = chooser.next_u64();
        if self.count == 1 {
            return self.claim_on(seat, 0);
        }
        // For most forks of a large program, no core has a free slot. So this check must be cheap, and writes nothing.
        if !self.is_any_free() {
            return Ok(None);
        }
        self.claim_on_chosen(seat, word)
    }

    fn claim_on_chosen(&self, seat: &mut C::Seat, word: u64) -> Result<Option<C::Claim>, AllocError>
        requires { C.sits self.now.table.now seat.old }
        ensures seat { C.sits self.now.table.now seat.new }
        ensures weight { C.weight seat.new ≡ C.weight seat.old }
        ensures out { GetsPlace (C.has self.now.table.now) seat.old seat.new result }
        ensures place { IsOnSomeCore C.Claim.place_of (C.core_count self.now.table.now) result }
    {
        let mut occupancies = [OccWord::empty(); CORES as usize];
        self.look_at_all(seat, &mut occupancies);
        let Some(first) = first_core(word, &occupancies[..usize::from(self.count)]) else {
            return Ok(None);
        };
        match self.claim_on(seat, first)? {
            Some(claim) => Ok(Some(claim)),
            None => self.claim_on_another(seat, first, &occupancies),
        }
    }

    /// Claims the first open and empty core, if there is one, for a thread that needs a core for itself.
    ///
    /// Returns `Err` if memory for the thread is refused.
    pub fn claim_exclusive(&self, seat: &mut C::Seat) -> Result<Option<C::Claim>, AllocError>
        requires { C.sits self.now.table.now seat.old }
        ensures seat { C.sits self.now.table.now seat.new }
        ensures weight { C.weight seat.new ≡ C.weight seat.old }
        ensures out { GetsPlace (C.has self.now.table.now) seat.old seat.new result }
        ensures place { IsAtStartOfSome C.Claim.place_of (C.core_count self.now.table.now) result }
    {
        for core in 0..self.count {
            if let Some(claim) = self.claim_whole(seat, core)? {
                return Ok(Some(claim));
            }
        }
        Ok(None)
    }

    /// Returns true if some core seemed to have a free slot, which others may claim at any time. Writes no memory.
    pub(crate) fn is_any_free(&self) -> bool {
        for core in 0..self.count {
            let seen = OccWord::from_word(self.table.glance(self.rt, core));
            if let Some(occupancy) = seen
                && has_place(occupancy, self.slots)
            {
                return true;
            }
        }
        false
    }

    fn look_at_all(&self, seat: &mut C::Seat, occupancies: &mut [OccWord; CORES as usize])
        requires { C.sits self.now.table.now seat.old }
        ensures seat { C.sits self.now.table.now seat.new }
        ensures weight { C.weight seat.new ≡ C.weight seat.old }
        ensures out { KeepsOut (C.has self.now.table.now) seat.old seat.new }
    {
        for core in 0..self.count {
            occupancies[usize::from(core)] = self.look(seat, core);
        }
    }

    /// Claims a slot of the first core except `tried` that had one free in `occupancies`, and still has one.
    fn claim_on_another(
        &self,
        seat: &mut C::Seat,
        tried: u8,
        occupancies: &[OccWord; CORES as usize],
    ) -> Result<Option<C::Claim>, AllocError>
        requires { C.sits self.now.table.now seat.old }
        ensures seat { C.sits self.now.table.now seat.new }
        ensures weight { C.weight seat.new ≡ C.weight seat.old }
        ensures out { GetsPlace (C.has self.now.table.now) seat.old seat.new result }
        ensures place { IsOnSomeCore C.Claim.place_of (C.core_count self.now.table.now) result }
    {
        for core in 0..self.count {
            if core != tried
                && has_place(occupancies[usize::from(core)], self.slots)
                && let Some(claim) = self.claim_on(seat, core)?
            {
                return Ok(Some(claim));
            }
        }
        Ok(None)
    }

    /// Claims a thread slot of `core`. Returns `None` if the core has no free slot.
    ///
    /// If another claim took the slot in the meantime, tries again. Draws no random word.
    pub fn claim_on(&self, seat: &mut C::Seat, core: u8) -> Result<Option<C::Claim>, AllocError>
        requires seat { C.sits self.now.table.now seat.old }
        requires core { core < self.now.count }
        ensures seat { C.sits self.now.table.now seat.new }
        ensures weight { C.weight seat.new ≡ C.weight seat.old }
        ensures out { GetsPlace (C.has self.now.table.now) seat.old seat.new result }
        ensures place { IsOnCore C.Claim.place_of core result }
    {
        for _ in self.rt.forever() {
            let claimed = self.table.claim(self.rt, seat, core)?;
            if let Some(place) = claimed.settled() {
                return Ok(place);
            }
        }
        unreachable!()
    }

    /// Claims a whole core, or returns `None` if it is not open and empty.
    fn claim_whole(&self, seat: &mut C::Seat, core: u8) -> Result<Option<C::Claim>, AllocError>
        requires seat { C.sits self.now.table.now seat.old }
        requires core { core < self.now.count }
        ensures seat { C.sits self.now.table.now seat.new }
        ensures weight { C.weight seat.new ≡ C.weight seat.old }
        ensures out { GetsPlace (C.has self.now.table.now) seat.old seat.new result }
        ensures place { IsAtStartOf C.Claim.place_of core result }
    {
        for _ in self.rt.forever() {
            let claimed = self.table.claim_alone(self.rt, seat, core)?;
            if let Some(place) = claimed.settled() {
                return Ok(place);
            }
        }
        unreachable!()
    }
}
