//! A job in a pool, with the children that run or wait inside its slot, and the sender of the cell for its result.
ghost use Rattle.std.specs.Prelude.{◌≡◌, ◌+◌, ◌<◌, [], IfSome, IsSome, MatchOption, Some, None, length, true};

use crate::handle::{Cells, ResultSender, leave_at};
use crate::job::PoolJob;
use crate::stack::{Jobs, Stack};
use arachne_contexts::Tagged;
use arachne_core::ThreadId;
use std::alloc::Global;
use std::marker::Model;
use std::snapshot::Snapshot;

/// A job that was spawned and has not ended, with the children that run or wait inside its slot. A child that was
/// forked while no slot was free waits there, and runs when the job awaits it.
///
/// Contracts see the job's tag, the job as it was spawned, and its parent's id, if the job's end must wake the parent.
/// Contracts also see the unfinished jobs inside its slot, as they are now, and their number.
#[derive(Drop)]
pub struct Spawned<J: PoolJob> {
    tag: u64,
    pub(crate) stack: Stack<J>,
    /// `None` if the parent has ended without joining this job.
    sender: Option<ResultSender<J>>,
    /// The parent's id, if this job's end must wake the parent.
    parent: Option<ThreadId>,
}

impl<J: PoolJob> Model for Spawned<J> {
    ghost use Rattle.std.specs.Prelude.{◌≡◌, IfSome};
    ghost use Rattle.arachne_pool.specs.Jobs.{Being};

    ghost Value = { Being J };

    ghost view = { λ s. record { tag = s.tag; asked = s.stack.as_spawned; parent = s.parent; many = s.stack.many; jobs = s.stack.jobs } };

    ghost invariant = { λ s. IfSome s.sender (λ sender. sender.key.job.value ≡ s.stack.as_spawned) };
}

impl<J: PoolJob> Tagged for Spawned<J> {
    ghost tag_of = { λ s. s.tag };

    fn tag(&self) -> u64 {
        self.tag
    }
}

impl<J: PoolJob> Spawned<J> {
    ghost use Rattle.arachne_pool.specs.Jobs.{one};

    pub(crate) fn begin(
        alloc: Global,
        job: J,
        sender: Option<ResultSender<J>>,
        parent: Option<ThreadId>,
    ) -> Spawned<J>
        requires sender { IfSome sender (λ sender. sender.key.job.value ≡ job) }
        requires fresh { J.awaits job [] }
        ensures { result ≡ one (J.tag_of job) job parent }
    {
        Spawned {
            tag: job.tag(),
            stack: Stack::begin(alloc, job),
            sender,
            parent,
        }
    }

    /// Returns `count` minus the number of unfinished jobs in this slot, or `None` if they are more.
    pub(crate) fn taken_from(&self, count: u64) -> Option<u64>
        ensures { MatchOption result (count < self.now.many) (λ rest. rest + self.now.many ≡ count) }
    {
        self.stack.taken_from(count)
    }

    /// Detaches one child from an ended job that has not joined it, and returns a child that had not begun. If
    /// `has_room` is false, keeps a child that had not begun, and returns `None`.
    pub(crate) fn let_go(&mut self, alloc: Global, has_room: bool) -> Option<Spawned<J>>
        ensures room { IsSome result → has_room ≡ true }
        ensures same { self.new ≡ record self.old { many = self.new.many; jobs = self.new.jobs } }
        ensures many { MatchOption result (self.new.many ≡ self.old.many) (λ orphan. self.new.many + orphan.many ≡ self.old.many) }
    {
        let job = self.stack.let_go(has_room)?;
        Some(Spawned::begin(alloc, job, None, None))
    }

    /// Removes and returns the oldest child that waits inside this slot, as a job of its own, whose parent has the id
    /// `me`.
    ///
    /// Returns `None`, and changes nothing, if no child waits or memory is refused.
    pub(crate) fn part_oldest(
        &mut self,
        alloc: Global,
        cells: &mut Cells<J>,
        me: ThreadId,
    ) -> Option<Spawned<J>>
        ensures same { self.new ≡ record self.old { many = self.new.many; jobs = self.new.jobs } }
        ensures many { MatchOption result (self.new ≡ self.old) (λ child. self.new.many + child.many ≡ self.old.many) }
        ensures child { IfSome result (λ child. child ≡ one child.tag child.asked (Some me)) }
    {
        let (job, sender) = self.stack.links.part_oldest(alloc, cells)?;
        Some(Spawned::begin(alloc, job, Some(sender), Some(me)))
    }

    /// Sends the result of the spawned job. All jobs inside this slot must have ended.
    pub(crate) fn leave(self) -> Ended<J>
        requires { self.many ≡ 0 }
        ensures { result.job.value ≡ self }
    {
        let job = Snapshot::of(&self);
        let Spawned {
            stack,
            sender,
            parent,
            ..
        } = self;
        let Some(output) = stack.into_output() else {
            unreachable!()
        };
        leave_at(sender, output);
        Ended { job, parent }
    }

    /// Returns the unfinished jobs in this value, as they are now. If the spawned job has ended, sends its result.
    pub fn into_jobs(self) -> Jobs<J>
        ensures { (result ≡ self.jobs) × (length result ≡ self.many) }
    {
        let Spawned { stack, sender, .. } = self;
        let (jobs, output) = stack.into_jobs();
        if let Some(output) = output {
            leave_at(sender, output);
        }
        jobs
    }
}

#[derive(Drop)]
pub(crate) struct Ended<J: PoolJob> {
    job: Snapshot<Spawned<J>>,
    /// The parent's id, if the job's end must wake the parent.
    pub(crate) parent: Option<ThreadId>,
    ghost own: { parent ≡ job.value.parent },
}
