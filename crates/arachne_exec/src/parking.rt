//! The calls by which a worker finds its next job, or parks if it has none.
ghost use Rattle.std.specs.Prelude.{◌≡◌, ℕ, ◌+◌, ◌*◌, ◌<◌, IsTrue, IsFalse, IfSome, IfNone};
ghost use Rattle.std.specs.Int.{bit_at};
ghost use Rattle.arachne_exec.specs.Layout.{numbers_at};
ghost use Rattle.arachne_exec.specs.Changes.{noted, rising, working};
ghost use Rattle.arachne_exec.specs.Calls.{HasAnswered, HasFoundNone, HasFoundSome, HasSearched, HasTakenInShard, HandsNext, HandsOver, KeepsHand};

use crate::answers::{HeldJob, Next};
use crate::executor::Executor;
use crate::layout::summary_word;
use crate::rounds::Round;
use crate::seat::{ExecSeat, SeatInCall};
use crate::turns::SearchTurn;

fn shards_of(worker: usize, shards: usize) -> usize
    requires { worker < 64 }
    ensures all { (j : ℕ) → worker + 64 * j < shards → j < result }
    ensures none { (j : ℕ) → j < result → worker + 64 * j < shards }
{
    if worker < shards {
        (shards - worker - 1) / 64 + 1
    } else {
        0
    }
}

impl Executor {
    /// Makes the caller the worker with the number `worker`. Returns false if another seat has that number.
    pub fn register(&self, seat: &mut ExecSeat, worker: usize) -> bool
        requires own { seat.old.table ≡ self.now.table }
        requires worker { (seat.old.known.worker ≡ 0) × (worker < 64) }
        ensures seat { seat.new ≡ record seat.old { known = seat.new.known } }
        ensures registered { IsTrue result → (numbers : ℕ) × (bit_at numbers worker ≡ 1) × (seat.new.known ≡ working (worker + 1) (noted numbers_at numbers seat.old.known)) }
        ensures taken { IsFalse result → (numbers : ℕ) × (bit_at numbers worker ≡ 0) × (seat.new.known ≡ noted numbers_at numbers seat.old.known) }
    {
        self.take_number(&mut seat.at, worker)
    }

    /// Gives the seat's worker number back, so that another seat can get this number.
    pub fn leave(&self, seat: &mut ExecSeat, worker: usize)
        requires own { seat.old.table ≡ self.now.table }
        requires worker { (seat.old.known.worker ≡ worker + 1) × (worker < 64) }
        ensures { (numbers : ℕ) × (seat.new ≡ record seat.old { known = working 0 (noted numbers_at numbers seat.old.known) }) }
    {
        self.give_number(&mut seat.at, worker);
    }

    /// Marks the worker as awake, so that other threads don't unpark it. A worker that wakes by itself calls this.
    pub fn wake_up(&self, seat: &mut ExecSeat, worker: usize)
        requires own { seat.old.table ≡ self.now.table }
        requires worker { (seat.old.known.worker ≡ worker + 1) × (worker < 64) }
        ensures { (found : ℕ) × (seat.new ≡ record seat.old { known = rising worker found seat.old.known }) }
    {
        self.clear_idle(&mut seat.at, worker);
    }

    fn lie_down(&self, seat: &mut SeatInCall, worker: usize) -> bool
        requires own { seat.old.table ≡ self.now.table }
        requires worker { (seat.old.known.worker ≡ worker + 1) × (worker < 64) }
        requires calm { seat.old.known.unshown ≡ 0 }
        ensures seat { seat.new ≡ record seat.old { known = seat.new.known } }
        ensures parks { IsTrue result → HasFoundNone self.now.shards worker seat.old.known seat.new.known }
        ensures stays { IsFalse result → HasFoundSome self.now.shards worker seat.old.known seat.new.known }
    {
        self.few();
        self.set_idle(seat, worker);
        for next in 0..shards_of(worker, self.shards) {
            if !self.sees_none(seat, worker, next) {
                self.clear_idle(seat, worker);
                return false;
            }
        }
        true
    }

    /// Marks the worker as asleep, and then looks for blocks of the worker that may have ready jobs. Returns true if
    /// there is none, so that the worker may park. Otherwise marks the worker as awake again, and returns false.
    pub fn may_park(&self, seat: &mut ExecSeat, worker: usize) -> bool
        requires own { seat.old.table ≡ self.now.table }
        requires worker { (seat.old.known.worker ≡ worker + 1) × (worker < 64) }
        ensures seat { seat.new ≡ record seat.old { known = seat.new.known } }
        ensures parks { IsTrue result → HasFoundNone self.now.shards worker seat.old.known seat.new.known }
        ensures stays { IsFalse result → HasFoundSome self.now.shards worker seat.old.known seat.new.known }
    {
        self.lie_down(&mut seat.at, worker)
    }

    /// Takes a ready job of `shard` (64 blocks). Removes the blocks in which it finds no ready job from the worker's
    /// list of blocks to search.
    fn take_in_shard(&self, seat: &mut ExecSeat, shard: usize) -> Option<HeldJob>
        requires own { seat.old.table ≡ self.now.table }
        requires shard { shard < self.now.shards }
        ensures seat { seat.new ≡ record seat.old { known = seat.new.known } }
        ensures took { IfSome result (λ job. HasTakenInShard job self.now.shards shard seat.old.known seat.new.known) }
        ensures none { IfNone result (HasSearched shard seat.old.known seat.new.known) }
        ensures hand { IfSome result (λ job. HandsOver (4096 * self.now.shards) job seat.old.known seat.new.known) }
        ensures same { IfNone result (KeepsHand seat.old.known seat.new.known) }
    {
        self.few();
        let shown = self.look(&mut seat.at, summary_word(shard));
        let mut left = seat.turn.unsearched(shard, shown);
        while let Some(index) = left.next() {
            let block = 64 * shard + index;
            let from = seat.turn.first_place(block);
            if let Some(taken) = self.take_from(seat, block, from) {
                let job = taken.job;
                seat.turn = SearchTurn::behind(job.place, taken.more, left.has_more(index));
                return Some(job);
            }
            self.tidy(&mut seat.at, block);
            left.pass(block);
        }
        None
    }

    /// Returns the worker's next action: to run the job that this call has taken, to park, or to call `next` again.
    pub fn next(&self, seat: &mut ExecSeat, worker: usize) -> Next
        requires own { seat.old.table ≡ self.now.table }
        requires worker { (seat.old.known.worker ≡ worker + 1) × (worker < 64) }
        ensures seat { seat.new ≡ record seat.old { known = seat.new.known } }
        ensures answer { HasAnswered result self.now.shards worker seat.old.known seat.new.known }
        ensures hand { HandsNext result (4096 * self.now.shards) seat.old.known seat.new.known }
    {
        self.few();
        let mut round = Round::of(&seat.turn, worker, shards_of(worker, self.shards));
        while let Some(shard) = round.next() {
            if let Some(job) = self.take_in_shard(seat, shard) {
                return Next::Run(job);
            }
        }
        if self.may_park(seat, worker) {
            Next::Park
        } else {
            Next::Again
        }
    }
}
