//! A context table that gives its own results to some calls, so that tests see how a run copes with them.
ghost use Rattle.std.specs.Prelude.{◌≡◌, ◌<◌, IfOk, IfErr};
ghost use Rattle.arachne_contexts.specs.Answers.{RestsAs};
ghost use Rattle.arachne_contexts.specs.Out.{Thread as a_thread, Spends};
ghost use Rattle.arachne_locked.specs.Seats.{HasCounted, CountsOut};

use crate::gates::comes;
use arachne_contexts::{Claimed, Contexts, Held, Moved, Rested, Seats, Tagged, Taken, Woken};
use arachne_core::{Place, Rest, ThreadId};
use arachne_locked::{LockedClaim, LockedContexts, LockedHold, LockedSeat};
use std::alloc::{AllocError, Global};
use std::hint::spin_loop;
use std::sync::Wait;
use std::sync::atomic::{AtomicU64, Ordering};
use std::thread::yield_now;

/// The occupancy word of a core that is open and has no free slot.
const FULL: u64 = 0x38FF_FFFF_FFFF_FFFF;

const THREE: u64 = 0b111;

/// The calls to which an `Altered` table gives its own results.
#[derive(Clone, Copy)]
enum Alteration {
    None,
    /// `finish` returns the thread as an error instead of ending it.
    HandsBack,
    IsFull,
    /// A claim on a core with occupied slots fails with `AllocError`. After that, `finish` returns threads as errors.
    RefusesMemory,
    /// Of every three calls of `claim`, `claim_alone` and `wake`, the first two return `Lost`.
    Loses,
    /// On core 1, `glance` and `claim` wait until a slot is free.
    AwaitsPlace,
    OpensLate,
}

impl Alteration {
    /// Returns the alteration of a table with these numbers of cores and slots.
    fn of(cores: u8, slots: u8) -> Alteration {
        match (cores, slots) {
            (5, _) => Alteration::HandsBack,
            (6, _) => Alteration::RefusesMemory,
            (7, _) => Alteration::IsFull,
            (_, 5) => Alteration::Loses,
            (2, 3) => Alteration::AwaitsPlace,
            (_, 9) => Alteration::OpensLate,
            _ => Alteration::None,
        }
    }
}

/// In the alteration `RefusesMemory`, `finish` waits until a claim was refused memory, but for at most this number of
/// polls.
const POLLS: u32 = 100_000_000;

/// A pause has this number of spins, then `YIELDS` yields, which give an earlier call time to take effect elsewhere.
const SPINS: u32 = 1_000_000;

const YIELDS: u32 = 100;

const GLANCES: u32 = 2_000_000;

/// A table behind a lock that forwards all calls except for those that its `alteration` names.
#[derive(Drop)]
pub struct Altered<T: Tagged> {
    inner: LockedContexts<T>,
    alteration: Alteration,
    answered: AtomicU64,
}

fn give_time() {
    for _ in 0..SPINS {
        spin_loop();
    }
    for _ in 0..YIELDS {
        yield_now();
    }
}

impl<T: Tagged + Drop> Altered<T> {
    /// Reads the occupancy word of `core` until one of its first three slots is free, at most `GLANCES` times.
    fn glance_at_place<R: Wait>(&self, rt: &R, core: u8) -> u64
        requires { core < self.now.inner.cores }
    {
        let mut seen = self.inner.glance(rt, core);
        for _ in 0..GLANCES {
            if seen & THREE != THREE {
                break;
            }
            yield_now();
            seen = self.inner.glance(rt, core);
        }
        seen
    }
}

impl<T: Tagged + Drop> Seats for Altered<T> {
    type Seat = LockedSeat;

    ghost sits = { λ table seat. Unit {0} };

    ghost idle = { λ table seat. HasCounted seat 0 };

    ghost weight = { λ seat. seat.weight };

    ghost core_count = { λ table. table.inner.cores };

    ghost slot_count = { λ table. table.inner.slots };

    fn new(
        alloc: Global,
        cores: u8,
        slots: u8,
        first_generation: u64,
    ) -> Result<(Altered<T>, LockedSeat), AllocError> {
        let (inner, seat) = LockedContexts::new(alloc, cores, slots, first_generation)?;
        let altered = Altered {
            inner,
            alteration: Alteration::of(cores, slots),
            answered: AtomicU64::new(0),
        };
        Ok((altered, seat))
    }

    fn split<R: Wait>(&self, rt: &R, seat: LockedSeat) -> (LockedSeat, LockedSeat) {
        self.inner.split(rt, seat)
    }

    fn join_seats<R: Wait>(&self, rt: &R, seat: LockedSeat, other: LockedSeat) -> LockedSeat {
        self.inner.join_seats(rt, seat, other)
    }

    fn is_whole(&self, seat: &LockedSeat) -> bool {
        self.inner.is_whole(seat)
    }

    fn out(&self, seat: &LockedSeat) -> u32 {
        self.inner.out(seat)
    }
}

impl<T: Tagged + Drop> Contexts<T> for Altered<T> {
    type Claim = LockedClaim;

    type Hold = LockedHold;

    ghost has = { λ table seat outs. CountsOut seat outs };

    ghost settles = { λ table seat left. Unit {0} };

    fn glance<R: Wait>(&self, rt: &R, core: u8) -> u64 {
        match self.alteration {
            Alteration::AwaitsPlace if core == 1 => self.glance_at_place(rt, core),
            _ => self.inner.glance(rt, core),
        }
    }

    fn look<R: Wait>(&self, rt: &R, seat: &mut LockedSeat, core: u8) -> u64 {
        self.inner.look(rt, seat, core)
    }

    fn look_mark<R: Wait>(&self, rt: &R, seat: &mut LockedSeat, context: u32) -> u64 {
        self.inner.look_mark(rt, seat, context)
    }

    fn claim<R: Wait>(
        &self,
        rt: &R,
        seat: &mut LockedSeat,
        core: u8,
    ) -> Result<Claimed<LockedClaim>, AllocError> {
        match self.alteration {
            Alteration::IsFull if core > 0 => {
                let _ = self.inner.slots();
                Ok(Claimed::Full(FULL))
            }
            Alteration::RefusesMemory if self.inner.look(rt, seat, core) != 0 => {
                self.answered.store(1, Ordering::SeqCst);
                Err(AllocError)
            }
            Alteration::Loses if self.answered.fetch_add(1, Ordering::SeqCst) % 3 < 2 => {
                Ok(Claimed::Lost(self.inner.look(rt, seat, core)))
            }
            Alteration::AwaitsPlace if core == 1 => {
                let _ = self.glance_at_place(rt, core);
                self.inner.claim(rt, seat, core)
            }
            _ => self.inner.claim(rt, seat, core),
        }
    }

    fn claim_alone<R: Wait>(
        &self,
        rt: &R,
        seat: &mut LockedSeat,
        core: u8,
    ) -> Result<Claimed<LockedClaim>, AllocError> {
        match self.alteration {
            Alteration::Loses if self.answered.fetch_add(1, Ordering::SeqCst) % 3 < 2 => {
                Ok(Claimed::Lost(FULL))
            }
            _ => self.inner.claim_alone(rt, seat, core),
        }
    }

    fn give_back<R: Wait>(
        &self,
        rt: &R,
        seat: &mut LockedSeat,
        claim: LockedClaim,
    ) -> Result<(), LockedClaim> {
        self.inner.give_back(rt, seat, claim)
    }

    fn post<R: Wait>(
        &self,
        rt: &R,
        seat: &mut LockedSeat,
        claim: LockedClaim,
        value: T,
    ) -> Result<ThreadId, (LockedClaim, T)> {
        self.inner.post(rt, seat, claim, value)
    }

    fn take<R: Wait>(
        &self,
        rt: &R,
        seat: &mut LockedSeat,
        core: u8,
        index: u8,
    ) -> Taken<T, LockedHold> {
        self.inner.take(rt, seat, core, index)
    }

    fn put_back<R: Wait>(
        &self,
        rt: &R,
        seat: &mut LockedSeat,
        held: Held<T, LockedHold>,
        rest: Rest,
    ) -> Result<Rested, Held<T, LockedHold>>
        ensures seat { Unit {0} }
        ensures weight { seat.new.weight ≡ seat.old.weight }
        ensures out { Spends CountsOut (a_thread held.hold (T.tag_of held.value)) seat.old seat.new result }
        ensures answer { IfOk result (RestsAs rest) }
        ensures handed_back { IfErr result (λ back. back ≡ held) }
    {
        self.inner.put_back(rt, seat, held, rest)
    }

    fn finish<R: Wait>(
        &self,
        rt: &R,
        seat: &mut LockedSeat,
        held: Held<T, LockedHold>,
    ) -> Result<T, Held<T, LockedHold>>
        ensures seat { Unit {0} }
        ensures weight { seat.new.weight ≡ seat.old.weight }
        ensures out { Spends CountsOut (a_thread held.hold (T.tag_of held.value)) seat.old seat.new result }
        ensures value { IfOk result (λ value. value ≡ held.value) }
        ensures handed_back { IfErr result (λ back. back ≡ held) }
    {
        match self.alteration {
            Alteration::HandsBack => Err(held),
            Alteration::RefusesMemory => {
                let _ = comes(&self.answered, 1, POLLS);
                give_time();
                Err(held)
            }
            _ => self.inner.finish(rt, seat, held),
        }
    }

    fn wake<R: Wait>(&self, rt: &R, seat: &mut LockedSeat, id: ThreadId) -> Woken {
        match self.alteration {
            Alteration::Loses if self.answered.fetch_add(1, Ordering::SeqCst) % 3 < 2 => {
                Woken::Lost(0)
            }
            _ => self.inner.wake(rt, seat, id),
        }
    }

    fn close_core<R: Wait>(&self, rt: &R, seat: &mut LockedSeat, core: u8) -> u64 {
        self.inner.close_core(rt, seat, core)
    }

    fn open_core<R: Wait>(&self, rt: &R, seat: &mut LockedSeat, core: u8) -> u64 {
        if let Alteration::OpensLate = self.alteration {
            give_time();
        }
        self.inner.open_core(rt, seat, core)
    }

    fn is_drained<R: Wait>(&self, rt: &R, seat: &mut LockedSeat, core: u8) -> bool {
        self.inner.is_drained(rt, seat, core)
    }

    fn move_one<R: Wait>(&self, rt: &R, seat: &mut LockedSeat, place: Place, to: u8) -> Moved {
        match self.alteration {
            Alteration::AwaitsPlace => Moved::Unposted,
            _ => self.inner.move_one(rt, seat, place, to),
        }
    }

    fn close<R: Wait>(
        self,
        rt: &R,
        alloc: Global,
        seat: LockedSeat,
    ) -> Result<Vec<(ThreadId, T)>, (Altered<T>, LockedSeat)> {
        match self.inner.close(rt, alloc, seat) {
            Ok(rest) => Ok(rest),
            Err((inner, seat)) => Err((Altered { inner, ..self }, seat)),
        }
    }

    ghost nothing_out = { λ table seat idle. idle };

    ghost is_idle = { λ table seat none. none };

    ghost swapped = { λ table seat first second outs has. has };
}
