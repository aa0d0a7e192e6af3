//! Calls that read, by one load, which blocks of a shard perhaps have ready jobs, or which slots of a block have one.
ghost use Rattle.std.specs.Prelude.{◌≡◌, ◌*◌, ◌<◌};
ghost use Rattle.arachne_exec.specs.Layout.{summary_at, ready_at};
ghost use Rattle.arachne_exec.specs.Changes.{noted};

use crate::executor::Executor;
use crate::layout::{ready_word, summary_word};
use crate::seat::ExecSeat;

impl Executor {
    /// Returns a bit for each of the 64 blocks of `shard`, which is set if the block may have ready jobs.
    ///
    /// A block whose bit is clear has no ready job, unless a call that makes a job ready there is still in progress.
    pub fn shown(&self, seat: &mut ExecSeat, shard: usize) -> u64
        requires own { seat.old.table ≡ self.now.table }
        requires shard { shard < self.now.shards }
        ensures { seat.new ≡ record seat.old { known = noted (summary_at shard) result seat.old.known } }
    {
        self.few();
        self.look(&mut seat.at, summary_word(shard))
    }

    /// Returns a bit for each of the 64 slots of `block`, which is set if the slot has a ready job.
    pub fn ready(&self, seat: &mut ExecSeat, block: usize) -> u64
        requires own { seat.old.table ≡ self.now.table }
        requires block { block < 64 * self.now.shards }
        ensures { seat.new ≡ record seat.old { known = noted (ready_at block) result seat.old.known } }
    {
        self.few();
        self.look(&mut seat.at, ready_word(block))
    }
}
