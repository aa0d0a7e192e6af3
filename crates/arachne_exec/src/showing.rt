//! Makes jobs ready, and finds out whether the worker that must run them sleeps.
ghost use Rattle.std.specs.Prelude.{◌≡◌, ◌≢◌, ℕ, ◌+◌, ◌*◌, ◌/◌, ◌<◌};
ghost use Rattle.atomic_table.specs.Table.{rest};
ghost use Rattle.arachne_exec.specs.Board.{IsLast};
ghost use Rattle.arachne_exec.specs.Layout.{mark_at, worker_of};
ghost use Rattle.arachne_exec.specs.Changes.{laying_down, spawning, rousing, settled};
ghost use Rattle.arachne_exec.specs.Seats.{HasNewest};

use crate::executor::Executor;
use crate::seat::SeatInCall;

impl Executor {
    /// Adds `block` to the list of blocks that its worker searches, as each call must that makes the block's first job
    /// ready. Returns true if the caller must unpark the worker.
    pub(crate) fn show(&self, seat: &mut SeatInCall, block: usize) -> bool
        requires own { seat.old.table ≡ self.now.table }
        requires block { block < 64 * self.now.shards }
        requires owed { (seat.old.known.unshown ≡ block + 1) × (seat.old.known.owes ≡ 0) }
        ensures { seat.new ≡ record seat.old { known = rousing result (worker_of (block / 64)) (settled seat.old.known) } }
    {
        if self.finds_shown(seat, block) {
            return false;
        }
        if !self.put_shown(seat, block) {
            return false;
        }
        if !self.finds_idle(seat, block / 64) {
            return false;
        }
        self.unpark(seat, block / 64)
    }

    /// Makes the job in slot `place` ready.
    ///
    /// Returns true if the caller must unpark the worker of that slot.
    pub(crate) fn publish(&self, seat: &mut SeatInCall, place: usize) -> bool
        requires own { seat.old.table ≡ self.now.table }
        requires place { place < 4096 * self.now.shards }
        requires newest { (job : ℕ) × HasNewest place job job seat.old }
        requires calm { (seat.old.known.unshown ≡ 0) × (seat.old.known.owes ≡ 0) }
        ensures { seat.new ≡ record seat.old { known = rousing result (worker_of (place / 4096)) (laying_down seat.old.known); slots = rest seat.old.slots } }
    {
        if !self.put_ready(seat, place) {
            return false;
        }
        self.show(seat, place / 64)
    }

    /// Makes `job` ready in slot `place`, which the caller has claimed. Returns true if the caller must unpark the
    /// worker of that slot.
    pub(crate) fn publish_new(&self, seat: &mut SeatInCall, place: usize, job: u64) -> bool
        requires own { seat.old.table ≡ self.now.table }
        requires place { place < 4096 * self.now.shards }
        requires newest { HasNewest place 0 job seat.old }
        requires claimed { seat.old.known.unspawned ≡ place + 1 }
        requires named { IsLast (mark_at place) seat.old.known.looks }
        requires calm { (seat.old.known.unshown ≡ 0) × (seat.old.known.owes ≡ 0) }
        ensures { seat.new ≡ record seat.old { known = rousing result (worker_of (place / 4096)) (spawning job seat.old.known); slots = rest seat.old.slots } }
    {
        if !self.put_spawned(seat, place, job) {
            return false;
        }
        self.show(seat, place / 64)
    }

    /// Removes `block` from its worker's list of blocks to search, if it has no ready job.
    ///
    /// Returns true if a job has become ready there meanwhile, and the caller must unpark the worker.
    pub(crate) fn tidy(&self, seat: &mut SeatInCall, block: usize) -> bool
        requires own { seat.old.table ≡ self.now.table }
        requires block { block < 64 * self.now.shards }
        requires calm { (seat.old.known.unshown ≡ 0) × (seat.old.known.owes ≡ 0) }
        ensures { seat.new ≡ record seat.old { known = rousing result (worker_of (block / 64)) seat.old.known } }
    {
        self.hide(seat, block);
        if self.has_none(seat, block) {
            return false;
        }
        self.show(seat, block)
    }
}
