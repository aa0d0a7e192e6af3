//! Moves the threads of a closed core to other cores.
ghost use Rattle.std.specs.Prelude.{◌≡◌, ◌<◌, ◌≤◌, true, false, replicate, slice_set, slice_index_or, vec_len, IfOk, IfSome};
ghost use Rattle.arachne_arbiter.specs.Draining.{IsSettled, WaitsForNoMore};
ghost use Rattle.arachne_contexts.specs.Out.{KeepsOut};

use crate::cores::Cores;
use arachne_contexts::{Contexts, Moved, Tagged};
use arachne_core::Place;
use std::alloc::{AllocError, Global};
use std::sync::Wait;

/// The closed cores that may still have threads. `last` is the closed core that `round` has visited last.
#[derive(Debug, Drop)]
pub(crate) struct Draining {
    waiting: Vec<bool>,
    last: u8,
    // If true, no closed core has a thread that must be moved. Can be false even then.
    settled: bool,
    ghost rests: { IsSettled settled waiting.items },
}

impl Draining {
    pub(crate) fn new(alloc: Global, cores: u8) -> Result<Draining, AllocError>
        ensures { IfOk result (λ draining. draining.waiting.items ≡ replicate cores false) }
    {
        let waiting = vec![in alloc; false; usize::from(cores)]?;
        Ok(Draining {
            waiting,
            last: 0,
            settled: true,
        })
    }

    pub(crate) fn start(&mut self, core: u8)
        requires { core < vec_len self.old.waiting }
        ensures { self.new.waiting.items ≡ slice_set self.old.waiting.items core true }
    {
        self.waiting[usize::from(core)] = true;
        self.settled = false;
    }

    pub(crate) fn stop(&mut self, core: u8)
        requires { core < vec_len self.old.waiting }
        ensures { self.new.waiting.items ≡ slice_set self.old.waiting.items core false }
    {
        self.waiting[usize::from(core)] = false;
    }

    /// Moves threads away from one closed core, the next at each call.
    ///
    /// Adds to `receivers` a bit for each core that has got threads. Reads no core if earlier calls have found all
    /// closed cores empty.
    pub(crate) fn round<H: Wait, T: Tagged, C: Contexts<T>>(
        &mut self,
        cores: &Cores<'_, H, T, C>,
        seat: &mut C::Seat,
        receivers: &mut u64,
    )
        requires seat { C.sits cores.now.table.now seat.old }
        requires cores { vec_len self.old.waiting ≡ cores.now.count }
        ensures seat { C.sits cores.now.table.now seat.new }
        ensures weight { C.weight seat.new ≡ C.weight seat.old }
        ensures out { KeepsOut (C.has cores.now.table.now) seat.old seat.new }
        ensures fewer { WaitsForNoMore self.old.waiting.items self.new.waiting.items }
    {
        if self.settled {
            return;
        }
        match self.next_core(cores.count) {
            Some(core) => {
                if cores.move_away(seat, core, receivers) {
                    self.stop(core);
                }
            }
            None => self.settled = !self.waiting.contains(&true),
        }
    }

    fn next_core(&mut self, cores: u8) -> Option<u8>
        requires { vec_len self.old.waiting ≡ cores }
        ensures next { IfSome result (λ core. (core < cores) × (slice_index_or self.old.waiting.items core false ≡ true)) }
        ensures waiting { self.new.waiting ≡ self.old.waiting }
    {
        for _ in 0..cores {
            self.last = if self.last < cores - 1 {
                self.last + 1
            } else {
                0
            };
            if self.waiting[usize::from(self.last)] {
                return Some(self.last);
            }
        }
        None
    }
}

impl<'a, H: Wait, T: Tagged, C: Contexts<T>> Cores<'a, H, T, C> {
    /// Returns true if `core` was empty before the call.
    ///
    /// A thread goes to the first other core that has room, and that core's bit is set in `receivers`. A thread stays
    /// for a later call if it is running, was not posted yet, was just changed by another call, or finds no room.
    pub(crate) fn move_away(&self, seat: &mut C::Seat, core: u8, receivers: &mut u64) -> bool
        requires seat { C.sits self.now.table.now seat.old }
        requires core { core < self.now.count }
        ensures seat { C.sits self.now.table.now seat.new }
        ensures weight { C.weight seat.new ≡ C.weight seat.old }
        ensures out { KeepsOut (C.has self.now.table.now) seat.old seat.new }
    {
        let occupancy = self.look(seat, core);
        if occupancy.is_empty() {
            return true;
        }
        if occupancy.is_exclusive() {
            return false;
        }
        let mut to = 0;
        for index in 0..self.slots {
            if to >= self.count {
                break;
            }
            if occupancy.is_occupied(index) {
                to = self.move_from(seat, Place { core, index }, to, receivers);
            }
        }
        false
    }

    /// Moves the thread at `place` to the first other core, from core `from` on, that has room.
    ///
    /// Returns the first core that may have room for the next thread to be moved.
    fn move_from(&self, seat: &mut C::Seat, place: Place, from: u8, receivers: &mut u64) -> u8
        requires seat { C.sits self.now.table.now seat.old }
        requires core { place.core < self.now.count }
        requires index { place.index < self.now.slots }
        ensures seat { C.sits self.now.table.now seat.new }
        ensures weight { C.weight seat.new ≡ C.weight seat.old }
        ensures out { KeepsOut (C.has self.now.table.now) seat.old seat.new }
    {
        for to in from..self.count {
            if to == place.core {
                continue;
            }
            match self.table.move_one(self.rt, seat, place, to) {
                Moved::NoRoom(_) => {}
                Moved::Moved => {
                    *receivers |= 1 << u32::from(to);
                    return to;
                }
                Moved::Unposted | Moved::Running | Moved::Alone | Moved::Lost(_) => return to,
            }
        }
        self.count
    }
}
