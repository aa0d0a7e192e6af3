//! One function for each atomic operation by which workers sleep and are woken.
ghost use Rattle.std.specs.Prelude.{◌≡◌, ◌≢◌, ℕ, ◌+◌, ◌*◌, ◌/◌, ◌%◌, ◌<◌, IsTrue, IsFalse};
ghost use Rattle.std.specs.Int.{bit_at};
ghost use Rattle.arachne_exec.specs.Layout.{numbers_at, summary_at, worker_of};
ghost use Rattle.arachne_exec.specs.Changes.{noted, rousing, unshowing, owing, having_seen, lying, rising, working};

use crate::executor::Executor;
use crate::layout::{IDLE, NUMBERS, all_but, bit, ready_word, summary_word};
use crate::seat::SeatInCall;
use crate::steps::{
    FindShown, Hide, LookAgain, LookIdle, LookNext, Register, Rise, SetIdle, Show, Unpark,
    Unregister,
};

impl Executor {
    /// Returns true if `block` is on the list of blocks that its worker searches.
    pub(crate) fn finds_shown(&self, seat: &mut SeatInCall, block: usize) -> bool
        requires own { seat.old.table ≡ self.now.table }
        requires block { block < 64 * self.now.shards }
        requires owed { seat.old.known.unshown ≡ block + 1 }
        ensures shown { IsTrue result → seat.new ≡ record seat.old { known = unshowing 0 seat.old.known } }
        ensures hidden { IsFalse result → seat.new ≡ seat.old }
    {
        let _ = self.shards;
        let shared = &self.table.shared;
        let found = shared.load::<FindShown>(&mut seat.seat, summary_word(block / 64));
        found >> (block % 64) as u32 & 1 == 1
    }

    /// Adds `block` to the list of blocks that its worker searches. Returns true if no block of its shard (64 blocks)
    /// was on the list: the caller must then find out whether the worker sleeps.
    pub(crate) fn put_shown(&self, seat: &mut SeatInCall, block: usize) -> bool
        requires own { seat.old.table ≡ self.now.table }
        requires block { block < 64 * self.now.shards }
        requires owed { (seat.old.known.unshown ≡ block + 1) × (seat.old.known.owes ≡ 0) }
        ensures first { IsTrue result → seat.new ≡ record seat.old { known = owing (block / 64 + 1) (unshowing 0 seat.old.known) } }
        ensures more { IsFalse result → seat.new ≡ record seat.old { known = unshowing 0 seat.old.known } }
    {
        let _ = self.shards;
        let shared = &self.table.shared;
        shared.fetch_or::<Show>(&mut seat.seat, summary_word(block / 64), bit(block % 64)) == 0
    }

    pub(crate) fn hide(&self, seat: &mut SeatInCall, block: usize)
        requires own { seat.old.table ≡ self.now.table }
        requires block { block < 64 * self.now.shards }
        requires shown { seat.old.known.unshown ≡ 0 }
        ensures { seat.new ≡ record seat.old { known = unshowing (block + 1) seat.old.known } }
    {
        let _ = self.shards;
        let shared = &self.table.shared;
        shared.fetch_and::<Hide>(
            &mut seat.seat,
            summary_word(block / 64),
            all_but(block % 64),
        );
    }

    pub(crate) fn has_none(&self, seat: &mut SeatInCall, block: usize) -> bool
        requires own { seat.old.table ≡ self.now.table }
        requires block { block < 64 * self.now.shards }
        requires owed { seat.old.known.unshown ≡ block + 1 }
        ensures none { IsTrue result → seat.new ≡ record seat.old { known = unshowing 0 seat.old.known } }
        ensures some { IsFalse result → seat.new ≡ seat.old }
    {
        let _ = self.shards;
        let shared = &self.table.shared;
        shared.load::<LookAgain>(&mut seat.seat, ready_word(block)) == 0
    }

    /// Returns true if the worker of `shard` is marked as asleep, so that the caller must call `unpark`.
    pub(crate) fn finds_idle(&self, seat: &mut SeatInCall, shard: usize) -> bool
        requires own { seat.old.table ≡ self.now.table }
        requires owed { seat.old.known.owes ≡ shard + 1 }
        ensures idle { IsTrue result → seat.new ≡ seat.old }
        ensures awake { IsFalse result → seat.new ≡ record seat.old { known = owing 0 seat.old.known } }
    {
        let _ = self.shards;
        let found = self.table.shared.load::<LookIdle>(&mut seat.seat, IDLE);
        found >> (shard % 64) as u32 & 1 == 1
    }

    /// Marks the worker of `shard` as awake, and returns true if it was asleep: the caller must unpark it.
    pub(crate) fn unpark(&self, seat: &mut SeatInCall, shard: usize) -> bool
        requires own { seat.old.table ≡ self.now.table }
        requires owed { seat.old.known.owes ≡ shard + 1 }
        ensures seat { seat.new ≡ record seat.old { known = rousing result (worker_of shard) (owing 0 seat.old.known) } }
    {
        let _ = self.shards;
        let shared = &self.table.shared;
        let found = shared.fetch_and::<Unpark>(&mut seat.seat, IDLE, all_but(shard % 64));
        found >> (shard % 64) as u32 & 1 == 1
    }

    pub(crate) fn set_idle(&self, seat: &mut SeatInCall, worker: usize)
        requires own { seat.old.table ≡ self.now.table }
        requires worker { (seat.old.known.worker ≡ worker + 1) × (worker < 64) }
        ensures seat { (found : ℕ) × (seat.new ≡ record seat.old { known = lying worker found seat.old.known }) }
    {
        let _ = self.shards;
        let shared = &self.table.shared;
        shared.fetch_or::<SetIdle>(&mut seat.seat, IDLE, bit(worker));
    }

    pub(crate) fn clear_idle(&self, seat: &mut SeatInCall, worker: usize)
        requires own { seat.old.table ≡ self.now.table }
        requires worker { (seat.old.known.worker ≡ worker + 1) × (worker < 64) }
        ensures seat { (found : ℕ) × (seat.new ≡ record seat.old { known = rising worker found seat.old.known }) }
    {
        let _ = self.shards;
        let shared = &self.table.shared;
        shared.fetch_and::<Rise>(&mut seat.seat, IDLE, all_but(worker));
    }

    /// Returns true if the shard at position `next` among the worker's shards has no block to search.
    pub(crate) fn sees_none(&self, seat: &mut SeatInCall, worker: usize, next: usize) -> bool
        requires own { seat.old.table ≡ self.now.table }
        requires worker { (seat.old.known.worker ≡ worker + 1) × (worker + 64 * next < self.now.shards) }
        requires next { seat.old.known.seen ≡ next }
        requires calm { seat.old.known.unshown ≡ 0 }
        ensures empty { IsTrue result → seat.new ≡ record seat.old { known = having_seen (next + 1) seat.old.known } }
        ensures full { IsFalse result → (n : ℕ) × (n ≢ 0) × (seat.new ≡ record seat.old { known = noted (summary_at (worker + 64 * next)) n seat.old.known }) }
    {
        let _ = self.shards;
        let shared = &self.table.shared;
        shared.load::<LookNext>(&mut seat.seat, summary_word(worker + 64 * next)) == 0
    }

    pub(crate) fn take_number(&self, seat: &mut SeatInCall, worker: usize) -> bool
        requires own { seat.old.table ≡ self.now.table }
        requires worker { (seat.old.known.worker ≡ 0) × (worker < 64) }
        ensures registered { IsTrue result → (n : ℕ) × (bit_at n worker ≡ 1) × (seat.new ≡ record seat.old { known = working (worker + 1) (noted numbers_at n seat.old.known) }) }
        ensures taken { IsFalse result → (n : ℕ) × (bit_at n worker ≡ 0) × (seat.new ≡ record seat.old { known = noted numbers_at n seat.old.known }) }
    {
        let _ = self.shards;
        let shared = &self.table.shared;
        let found = shared.fetch_and::<Register>(&mut seat.seat, NUMBERS, all_but(worker));
        found >> worker as u32 & 1 == 1
    }

    pub(crate) fn give_number(&self, seat: &mut SeatInCall, worker: usize)
        requires own { seat.old.table ≡ self.now.table }
        requires worker { (seat.old.known.worker ≡ worker + 1) × (worker < 64) }
        ensures seat { (n : ℕ) × (seat.new ≡ record seat.old { known = working 0 (noted numbers_at n seat.old.known) }) }
    {
        let _ = self.shards;
        let shared = &self.table.shared;
        shared.fetch_or::<Unregister>(&mut seat.seat, NUMBERS, bit(worker));
    }
}
