//! The calls on a table behind a lock. Each call takes the lock, changes the state, and frees the lock.
ghost use Rattle.std.specs.Prelude.{◌≡◌, ◌<◌, ◌≤◌, ◌*◌, ◌≢◌, ℕ, IsTrue, IfOk, IfErr};
ghost use Rattle.arachne_core.specs.Occupancy.{IsOccupancyWord};
ghost use Rattle.arachne_contexts.specs.Words.{HasNoPlace, ShowsFull, ShowsNoRoom};
ghost use Rattle.arachne_contexts.specs.Answers.{RestsAs};
ghost use Rattle.arachne_contexts.specs.Out.{Thread as a_thread, Spends};
ghost use Rattle.arachne_weights.specs.Weight.{first_part, second_part};
ghost use Rattle.arachne_locked.specs.Seats.{HasCounted, CountsOut};

use crate::seat::{LockedSeat, next_carrier};
use crate::slots::Slots;
use crate::state::{TableState, no_core};
use crate::tokens::{LockedClaim, LockedHold};
use arachne_contexts::{Claimed, Contexts, Held, Moved, Rested, Seats, Tagged, Taken, Woken};
use arachne_core::{OccWord, Place, Rest, SLOTS, ThreadId};
use arachne_weights::Weight;
use std::alloc::{AllocError, Global};
use std::sync::{Mutex, Wait};

/// A context table whose whole state is behind one lock, which each call takes and frees.
#[derive(Drop)]
pub struct LockedContexts<T: Tagged> {
    state: Mutex<TableState<T>>,
    /// The number of the newest seat (a kernel thread's right to call the table).
    last_carrier: Mutex<u32>,
    cores: u8,
    slots: Slots,
}

/// Returns the core's occupancy word, or that of a full core if the table has no such core.
fn word_of(occ: Option<OccWord>) -> u64
    ensures { IsOccupancyWord result }
{
    match occ {
        Some(occ) => occ.word(),
        None => no_core(SLOTS).word(),
    }
}

impl<T: Tagged + Drop> LockedContexts<T> {
    /// Returns the number of thread slots of each core.
    pub fn slots(&self) -> u8
        ensures value { result ≡ self.now.slots }
        ensures few { result ≤ SLOTS }
    {
        self.slots.count()
    }
}

/// Returns `word` if it shows that all slots of a core are occupied, and otherwise another word that shows this.
///
/// Checked at run time, since proofs outside the lock don't know how many slots the cores have.
fn full_word(word: u64, slots: Slots) -> u64
    ensures { ShowsFull slots result }
{
    if let Some(occ) = OccWord::from_word(word) {
        if !occ.is_closed() && has_no_place(occ, slots) {
            return word;
        }
    }
    full_core(slots)
}

/// Returns `word` if it shows a closed or full core, and otherwise a word that shows a full core.
fn no_room_word(word: u64, slots: Slots) -> u64
    ensures { ShowsNoRoom slots result }
{
    if let Some(occ) = OccWord::from_word(word) {
        if occ.is_closed() || has_no_place(occ, slots) {
            return word;
        }
    }
    full_core(slots)
}

fn has_no_place(occ: OccWord, slots: Slots) -> bool
    ensures { IsTrue result → HasNoPlace slots occ }
{
    occ.is_exclusive() || occ.lowest_free_below(slots.count()).is_none()
}

fn full_core(slots: Slots) -> u64
    ensures { ShowsFull slots result }
{
    no_core(slots.count()).word()
}

impl<T: Tagged + Drop> Seats for LockedContexts<T> {
    type Seat = LockedSeat;

    ghost sits = { λ table seat. Unit {0} };

    ghost idle = { λ table seat. HasCounted seat 0 };

    ghost weight = { λ seat. seat.weight };

    ghost core_count = { λ table. table.cores };

    ghost slot_count = { λ table. table.slots };

    fn new(
        alloc: Global,
        cores: u8,
        slots: u8,
        first_generation: u64,
    ) -> Result<(LockedContexts<T>, LockedSeat), AllocError> {
        let state = TableState::new(alloc, cores, slots, first_generation)?;
        let table = LockedContexts {
            state: Mutex::new(state),
            last_carrier: Mutex::new(0),
            cores,
            slots: Slots::new(slots),
        };
        let seat = LockedSeat {
            carrier: 0,
            weight: Weight::whole(),
            out: 0,
        };
        Ok((table, seat))
    }

    fn split<R: Wait>(&self, rt: &R, seat: LockedSeat) -> (LockedSeat, LockedSeat)
        requires sits { Unit {0} }
        requires idle { HasCounted seat 0 }
        ensures first { result.0 ≡ record seat { weight = first_part seat.weight } }
        ensures second { result.1 ≡ record { carrier = result.1.carrier; weight = second_part seat.weight; out = 0 } }
        ensures carriers { result.1.carrier ≢ seat.carrier }
    {
        let mut last = self.last_carrier.lock(rt);
        let carrier = next_carrier(*last, seat.carrier);
        *last = carrier;
        let (weight, other) = seat.weight.split();
        let other = LockedSeat {
            carrier,
            weight: other,
            out: 0,
        };
        (LockedSeat { weight, ..seat }, other)
    }

    fn join_seats<R: Wait>(&self, rt: &R, seat: LockedSeat, other: LockedSeat) -> LockedSeat {
        let _ = rt;
        LockedSeat {
            weight: seat.weight.join(other.weight),
            ..seat
        }
    }

    fn is_whole(&self, seat: &LockedSeat) -> bool {
        seat.weight.is_whole()
    }

    fn out(&self, seat: &LockedSeat) -> u32 {
        seat.out
    }
}

impl<T: Tagged + Drop> Contexts<T> for LockedContexts<T> {
    type Claim = LockedClaim;

    type Hold = LockedHold;

    ghost has = { λ table seat outs. CountsOut seat outs };

    // The seats of this table keep no record of which threads came into the table.
    ghost settles = { λ table seat left. Unit {0} };

    fn glance<R: Wait>(&self, rt: &R, core: u8) -> u64 {
        word_of(self.state.lock(rt).look(core))
    }

    fn look<R: Wait>(&self, rt: &R, seat: &mut LockedSeat, core: u8) -> u64 {
        let _ = seat;
        word_of(self.state.lock(rt).look(core))
    }

    fn look_mark<R: Wait>(&self, rt: &R, seat: &mut LockedSeat, context: u32) -> u64 {
        let _ = seat;
        match self.state.lock(rt).look_mark(context) {
            Some(mark) => mark.word(),
            None => 0,
        }
    }

    fn claim<R: Wait>(
        &self,
        rt: &R,
        seat: &mut LockedSeat,
        core: u8,
    ) -> Result<Claimed<LockedClaim>, AllocError> {
        let claimed = self.state.lock(rt).claim(seat.carrier, core)?;
        match claimed {
            Claimed::Place(claim) => {
                seat.gain();
                Ok(Claimed::Place(claim))
            }
            Claimed::Full(word) => Ok(Claimed::Full(full_word(word, self.slots))),
            other => Ok(other),
        }
    }

    fn claim_alone<R: Wait>(
        &self,
        rt: &R,
        seat: &mut LockedSeat,
        core: u8,
    ) -> Result<Claimed<LockedClaim>, AllocError> {
        let claimed = self.state.lock(rt).claim_alone(seat.carrier, core)?;
        if let Claimed::Place(_) = &claimed {
            seat.gain();
        }
        Ok(claimed)
    }

    fn give_back<R: Wait>(
        &self,
        rt: &R,
        seat: &mut LockedSeat,
        claim: LockedClaim,
    ) -> Result<(), LockedClaim> {
        self.state.lock(rt).give_back(seat.carrier, claim)?;
        seat.spend();
        Ok(())
    }

    fn post<R: Wait>(
        &self,
        rt: &R,
        seat: &mut LockedSeat,
        claim: LockedClaim,
        value: T,
    ) -> Result<ThreadId, (LockedClaim, T)> {
        let id = self.state.lock(rt).post(seat.carrier, claim, value)?;
        seat.spend();
        Ok(id)
    }

    fn take<R: Wait>(
        &self,
        rt: &R,
        seat: &mut LockedSeat,
        core: u8,
        index: u8,
    ) -> Taken<T, LockedHold> {
        let taken = self
            .state
            .lock(rt)
            .take(seat.carrier, Place { core, index });
        if let Taken::Run(_) = &taken {
            seat.gain();
        }
        taken
    }

    fn put_back<R: Wait>(
        &self,
        rt: &R,
        seat: &mut LockedSeat,
        held: Held<T, LockedHold>,
        rest: Rest,
    ) -> Result<Rested, Held<T, LockedHold>>
        ensures seat { Unit {0} }
        ensures weight { seat.new.weight ≡ seat.old.weight }
        ensures out { Spends CountsOut (a_thread held.hold (T.tag_of held.value)) seat.old seat.new result }
        ensures answer { IfOk result (RestsAs rest) }
        ensures handed_back { IfErr result (λ back. back ≡ held) }
    {
        let rested = self.state.lock(rt).put_back(seat.carrier, held, rest)?;
        seat.spend();
        Ok(rested)
    }

    fn finish<R: Wait>(
        &self,
        rt: &R,
        seat: &mut LockedSeat,
        held: Held<T, LockedHold>,
    ) -> Result<T, Held<T, LockedHold>>
        ensures seat { Unit {0} }
        ensures weight { seat.new.weight ≡ seat.old.weight }
        ensures out { Spends CountsOut (a_thread held.hold (T.tag_of held.value)) seat.old seat.new result }
        ensures value { IfOk result (λ value. value ≡ held.value) }
        ensures handed_back { IfErr result (λ back. back ≡ held) }
    {
        let value = self.state.lock(rt).finish(seat.carrier, held)?;
        seat.spend();
        Ok(value)
    }

    fn wake<R: Wait>(&self, rt: &R, seat: &mut LockedSeat, id: ThreadId) -> Woken {
        let _ = seat;
        self.state.lock(rt).wake(id)
    }

    fn close_core<R: Wait>(&self, rt: &R, seat: &mut LockedSeat, core: u8) -> u64 {
        let _ = seat;
        word_of(self.state.lock(rt).close_core(core))
    }

    fn open_core<R: Wait>(&self, rt: &R, seat: &mut LockedSeat, core: u8) -> u64 {
        let _ = seat;
        word_of(self.state.lock(rt).open_core(core))
    }

    fn is_drained<R: Wait>(&self, rt: &R, seat: &mut LockedSeat, core: u8) -> bool {
        let _ = seat;
        self.state.lock(rt).is_drained(core)
    }

    fn move_one<R: Wait>(&self, rt: &R, seat: &mut LockedSeat, place: Place, to: u8) -> Moved {
        match self.state.lock(rt).move_one(seat.carrier, place, to) {
            Moved::NoRoom(word) => Moved::NoRoom(no_room_word(word, self.slots)),
            other => other,
        }
    }

    fn close<R: Wait>(
        self,
        rt: &R,
        alloc: Global,
        seat: LockedSeat,
    ) -> Result<Vec<(ThreadId, T)>, (LockedContexts<T>, LockedSeat)> {
        let _ = rt;
        match self.state.into_inner().close(alloc) {
            Ok(rest) => Ok(rest),
            Err(state) => {
                let state = Mutex::new(state);
                Err((LockedContexts { state, ..self }, seat))
            }
        }
    }

    ghost nothing_out = { λ table seat idle. idle };

    ghost is_idle = { λ table seat none. none };

    ghost swapped = { λ table seat first second outs has. has };
}
