//! Takes several ready jobs of a block in one atomic operation.
ghost use Rattle.std.specs.Prelude.{◌≡◌, ℕ, ◌*◌, ◌<◌};
ghost use Rattle.std.specs.Int.RustNames.{bit_and};
ghost use Rattle.arachne_exec.specs.Layout.{PicksLowest};
ghost use Rattle.arachne_exec.specs.Seats.{IsNewest};
ghost use Rattle.arachne_exec.specs.Calls.{HasTakenMany, HasStarted, HandsMany, KeepsHand};

use crate::answers::HeldJob;
use crate::executor::Executor;
use crate::jobs::job_at;
use crate::layout::{all_but, bit, ready_word};
use crate::seat::ExecSeat;
use crate::turns::lowest_index;

fn lowest(word: u64, most: u32) -> u64
    requires { 0 < word }
    ensures some { 0 < result }
    ensures within { bit_and word result ≡ result }
    ensures lowest { (block : ℕ) → PicksLowest block word most result }
{
    let first = lowest_index(word);
    let mut pick = bit(first);
    let mut left = word & all_but(first);
    for count in 1..most {
        if left == 0 {
            return pick;
        }
        let index = lowest_index(left);
        pick |= bit(index);
        left &= all_but(index);
    }
    pick
}

impl Executor {
    /// Tries once to take up to `most` ready jobs of `block`, in one atomic operation. Returns a bit for each of the
    /// block's 64 slots whose job this call took. A `most` of 0 counts as 1.
    ///
    /// The caller then holds these jobs. It must start and end (or give back) each, from the lowest slot upwards.
    pub fn take_many(&self, seat: &mut ExecSeat, block: usize, most: u32) -> u64
        requires own { seat.old.table ≡ self.now.table }
        requires block { block < 64 * self.now.shards }
        ensures seat { seat.new ≡ record seat.old { known = seat.new.known } }
        ensures took { HasTakenMany result block most seat.old.known seat.new.known }
        ensures hand { HandsMany result block seat.old.known seat.new.known }
    {
        self.few();
        let ready = self.look(&mut seat.at, ready_word(block));
        if ready == 0 {
            return 0;
        }
        let pick = lowest(ready, most);
        self.take_bits(&mut seat.at, block, pick)
    }

    /// Prepares a job that `take_many` took, so that the caller can run it. Returns the job with its name and number.
    ///
    /// Clears a recorded wake of the job, since the job runs after the wake. Of the jobs that the caller holds, the job
    /// in slot `place` must be the one that it took last.
    pub fn start(&self, seat: &mut ExecSeat, place: usize) -> HeldJob
        requires own { seat.old.table ≡ self.now.table }
        requires place { place < 4096 * self.now.shards }
        requires newest { IsNewest place seat.old.known }
        ensures seat { seat.new ≡ record seat.old { known = seat.new.known } }
        ensures answer { HasStarted result place seat.old.known seat.new.known }
        ensures hand { KeepsHand seat.old.known seat.new.known }
    {
        self.few();
        let mark = self.refresh(&mut seat.at, place);
        let job = self.lay(&mut seat.at, place, 0);
        self.lay(&mut seat.at, place, job);
        job_at(place, mark, job)
    }
}
