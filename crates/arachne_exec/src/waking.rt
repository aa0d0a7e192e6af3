//! Wakes a job by its name: a blocked job becomes ready; for any other job, the slot's mark records the wake.
ghost use Rattle.std.specs.Prelude.{◌≡◌, ◌≢◌, ◌⊎◌, ℕ, ◌+◌, ◌*◌, ◌/◌, ◌%◌, ◌^◌, ◌<◌, ◌≤◌, ◌∷◌};
ghost use Rattle.arachne_exec.specs.Calls.{HasWoken, HasWokenHere, HandsWoken, KeepsHand, IsFound};

use crate::answers::{HeldJob, JobWoken, WokenHere};
use crate::executor::Executor;
use crate::layout::{LAST_GENERATION, mark_word, place_of};
use crate::seat::{ExecSeat, SeatInCall};

/// The result of `rouse`. `Held` has the slot of the woken job, which the caller now holds.
enum RouseResult {
    Held(usize),
    Marked,
    Already,
    Gone,
    Lost,
}

impl Executor {
    /// Wakes the job in slot `place`, if exactly `generation` jobs have ended there before. If the job was blocked, the
    /// caller then holds it.
    fn rouse(&self, seat: &mut SeatInCall, place: usize, generation: u64) -> RouseResult
        requires own { seat.old.table ≡ self.now.table }
        requires calm { seat.old.known.unshown ≡ 0 }
        ensures answer { IsFound result (4096 * self.now.shards) place generation seat.old seat.new }
    {
        self.few();
        if place >= 4096 * self.shards || generation >= LAST_GENERATION {
            return RouseResult::Gone;
        }
        let mark = self.look(seat, mark_word(place));
        if mark / 4 != generation {
            return RouseResult::Gone;
        }
        if mark % 2 == 1 {
            return RouseResult::Already;
        }
        if mark % 4 == 2 {
            if self.wake_mark(seat, place, mark) {
                return RouseResult::Held(place);
            }
            return RouseResult::Lost;
        }
        if self.mark(seat, place, mark) {
            return RouseResult::Marked;
        }
        RouseResult::Lost
    }

    /// Tries once to wake the job with this name. Any number may be passed as `name`.
    pub fn wake(&self, seat: &mut ExecSeat, name: u64) -> JobWoken
        requires own { seat.old.table ≡ self.now.table }
        ensures seat { seat.new ≡ record seat.old { known = seat.new.known } }
        ensures answer { HasWoken result (4096 * self.now.shards) (name % 2 ^ 20) (name / 2 ^ 20) seat.old.known seat.new.known }
        ensures hand { KeepsHand seat.old.known seat.new.known }
    {
        match self.rouse(&mut seat.at, place_of(name), name >> 20) {
            RouseResult::Held(place) => {
                let unpark = self.publish(&mut seat.at, place);
                JobWoken::Ready { unpark }
            }
            RouseResult::Marked => JobWoken::Marked,
            RouseResult::Already => JobWoken::Already,
            RouseResult::Gone => JobWoken::Gone,
            RouseResult::Lost => JobWoken::Lost,
        }
    }

    /// Tries once to wake the job with this name. If the job was blocked, the caller then holds it.
    pub fn wake_here(&self, seat: &mut ExecSeat, name: u64) -> WokenHere
        requires own { seat.old.table ≡ self.now.table }
        ensures seat { seat.new ≡ record seat.old { known = seat.new.known } }
        ensures answer { HasWokenHere result (4096 * self.now.shards) (name % 2 ^ 20) (name / 2 ^ 20) seat.old.known seat.new.known }
        ensures hand { HandsWoken result (4096 * self.now.shards) seat.old.known seat.new.known }
    {
        match self.rouse(&mut seat.at, place_of(name), name >> 20) {
            RouseResult::Held(place) => {
                let job = self.lay(&mut seat.at, place, 0);
                self.lay(&mut seat.at, place, job);
                WokenHere::Held(HeldJob { place, name, job })
            }
            RouseResult::Marked => WokenHere::Marked,
            RouseResult::Already => WokenHere::Already,
            RouseResult::Gone => WokenHere::Gone,
            RouseResult::Lost => WokenHere::Lost,
        }
    }
}
