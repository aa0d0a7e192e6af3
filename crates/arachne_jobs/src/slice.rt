//! The traits by which a worker (a core's kernel thread) runs a job for some steps, and then fulfils its request.
ghost use Rattle.std.specs.Prelude.{◌≡◌, ◌≤◌, ℕ, List, [], Option, false, IfOk, IfSome, IsSome, None, OnOk, Some};
ghost use Rattle.arachne_program.specs.Program.{source_of};
ghost use Rattle.arachne_program.specs.Checked.{IsChecked};
ghost use Rattle.arachne_core.specs.declared.thread_id.ThreadId.{ThreadId};
ghost use Rattle.arachne_machine.specs.declared.pause.Pending.{Pending};
ghost use Rattle.arachne_machine.specs.declared.pause.Pending.TheVariants as pause;
ghost use Rattle.arachne_jobs.specs.Slices.{IsLeft, IsRequest, MayRest, UsesSteps};

use crate::fault::JobFault;
use crate::openings::Openings;
use crate::room::Room;
use crate::wanted::OutcomeReceiver;
use arachne_contexts::Tagged;
use arachne_core::{Rest, ThreadId};
use arachne_program::{Class, Name, Program};
use std::alloc::{AllocError, Global};

/// The reason why a job has stopped after some steps.
#[derive(Drop)]
pub enum Slice<Child> {
    /// The job has more steps to make.
    Goes,
    /// The job has forked this child, of this class (normal, or with a core for itself). The worker decides where the
    /// child runs, by `fork_off` or `put_aside`.
    Forks(Class, Child),
    /// The job waits to join a child that has not ended.
    Blocks,
    /// The job asks for the lock of this number. The worker must get the lock for the job, and then call `answer`.
    Asks(u64),
    /// The job has made no step, since it still waits for the lock of this number, for which it has asked before.
    Awaits(u64),
    /// The job releases the lock of this number. The worker must free the lock, and call `answer`.
    Frees(u64),
    /// The job adds to a ledger, a shared sum (fields: its number, and the amount), while `openings` still has an
    /// amount for another ledger. The worker must add both amounts, and call `answer`.
    Tallies(u64, u64),
    /// The job has ended. The worker calls `leave`, which delivers the job's outcome (result) to its parent.
    Ends,
}

/// A thread as a worker sees it.
pub trait RunThread: Tagged + Drop {
    /// The thread's name: the numbers of the forks on the path from the root to it.
    ghost name_of: { Self → List ℕ };

    /// The tag (number in the run) of the thread that makes the next step.
    ghost running_tag_of: { Self → ℕ };

    /// The id of the thread's parent, or `None` for the root.
    ghost parent_of: { Self → Option ThreadId };

    /// The thread's request that the worker has not fulfilled yet.
    ghost pause_of: { Self → Option Pending };

    /// Returns the name of this thread, not of a child that runs inside its slot.
    fn name(&self) -> &Name
        ensures { result.now ≡ name_of self.now };

    /// Returns the tag (number in the run) of the thread that makes the next step: this thread, or a child inside its
    /// slot. A pending request is always one of that thread.
    fn running_tag(&self) -> u64
        ensures { result ≡ running_tag_of self.now };

    /// Returns the state in which the worker must put the thread back into its slot: ready, or blocked (waiting for a
    /// child or a lock). Returns `None` if the worker must fulfil a request first, or the thread has ended.
    fn rest(&self) -> Option<Rest>
        ensures { IfSome result (λ rest. MayRest rest (pause_of self.now)) };

    /// Resumes the thread, which now holds the lock, has freed it, or has added to the ledger. Returns the error
    /// `Foreign` if the thread has made no such request.
    fn answer(&mut self) -> Result<(), JobFault>
        ensures tag { Self.tag_of self.new ≡ Self.tag_of self.old }
        ensures parent { parent_of self.new ≡ parent_of self.old }
        ensures asked { OnOk result (IsRequest (pause_of self.old)) }
        ensures answered { OnOk result (pause_of self.new ≡ None) };
}

/// A queue entry for a forked child that waits for a thread slot.
pub trait RunTicket: Tagged + Drop {
    /// Returns true if the child of this queue entry still waits for a thread slot.
    fn still_waits(&self) -> bool;
}

/// Memory of ended threads, which a worker keeps for new threads.
pub trait RunSpares: Drop {
    /// Returns an empty store. Allocates no memory.
    fn none(alloc: Global) -> Self;
}

/// A thread with a slot of its own, which a worker runs for some steps at a time.
///
/// `run` has the job's type as a parameter, of which it knows only these traits, since the prover can't check `run` at
/// a job and a table that are both written out. One trait of all their calls would be too large to check.
pub trait RunJob: RunThread {
    /// A child that was forked and has no slot yet.
    type Child: Drop;

    type Ticket: RunTicket;

    type Spares: RunSpares;

    /// True if the job has forked this child, and the worker has not decided yet where the child runs.
    ghost forks: { Self → Self.Child → Type 0 };

    /// Runs the job for at most `left` steps, and subtracts the steps that were made from `left`. A job that must still
    /// wait for a lock or a child makes no step. After this call, the caller must add `openings.due` to the ledger (a
    /// shared sum) that is named there.
    fn slice(
        &mut self,
        left: &mut u32,
        spares: &mut Self::Spares,
        room: &Room,
        openings: &mut Openings,
    ) -> Result<Slice<Self::Child>, JobFault>
        requires { 1 ≤ left.old }
        ensures tag { Self.tag_of self.new ≡ Self.tag_of self.old }
        ensures steps { IfOk result (λ slice. UsesSteps slice left.old left.new) }
        ensures parent { Self.parent_of self.new ≡ Self.parent_of self.old }
        ensures left { IfOk result (λ slice. IsLeft forks Self.pause_of slice self.new) };

    /// Creates a job with the tag `tag` (number in the run) for `child`, which this job has just forked. Resumes this
    /// job, whose thread id is `me`.
    fn fork_off(
        &mut self,
        alloc: Global,
        me: ThreadId,
        child: Self::Child,
        tag: u64,
        spares: &mut Self::Spares,
    ) -> Result<Self, JobFault>
        requires { forks self.old child }
        ensures tag { Self.tag_of self.new ≡ Self.tag_of self.old }
        ensures parent { Self.parent_of self.new ≡ Self.parent_of self.old }
        ensures child { IfOk result (λ job. Self.tag_of job ≡ tag) }
        ensures childs_parent { IfOk result (λ job. Self.parent_of job ≡ Some me) }
        ensures answered { OnOk result (Self.pause_of self.new ≡ None) };

    /// Completes this job's fork of `child`, so that the child waits for a thread slot, and this job can be run again.
    /// `me` is this job's thread id, by which the child's end wakes it.
    ///
    /// The child gets the tag `tag` (number in the run), and waits until a worker has a slot for it, or until this job
    /// waits to join it. Returns the child's ticket (queue entry), which the caller must put into the queue. If `waits`
    /// is false or memory is refused, returns `None`, and the child runs inside this job's slot.
    fn put_aside(
        &mut self,
        alloc: Global,
        me: ThreadId,
        child: Self::Child,
        tag: u64,
        waits: bool,
    ) -> Result<Option<Self::Ticket>, JobFault>
        requires { forks self.old child }
        ensures tag { Self.tag_of self.new ≡ Self.tag_of self.old }
        ensures parent { Self.parent_of self.new ≡ Self.parent_of self.old }
        ensures answered { OnOk result (Self.pause_of self.new ≡ None) }
        ensures ticket { IfOk result (λ made. IfSome made (λ ticket. Self.Ticket.tag_of ticket ≡ tag)) }
        ensures asked { waits ≡ false → IfOk result (λ made. made ≡ None) };

    /// Creates a job for the child of `ticket` (a queue entry). Returns `None` if the child no longer waits for a slot.
    /// If memory is refused, also returns `None`, and the child goes on waiting for its parent.
    fn of_ticket(alloc: Global, ticket: Self::Ticket, spares: &mut Self::Spares) -> Option<Self>
        ensures parent { IfSome result (λ job. IsSome (Self.parent_of job)) }
        ensures tag { IfSome result (λ job. Self.tag_of job ≡ Self.Ticket.tag_of ticket) };

    /// Puts the outcome (result) of the ended job into its join cell, for its parent. Returns the parent's id, so that
    /// the caller can wake the parent, or `None` for the root. Returns the error `Foreign` if the job has not ended.
    fn leave(self, spares: &mut Self::Spares) -> Result<Option<ThreadId>, JobFault>
        ensures ended { OnOk result (Self.pause_of self ≡ Some pause.Ended) }
        ensures parent { IfOk result (λ parent. parent ≡ Self.parent_of self) };
}

/// A job for a thread of a task program.
pub trait JobOf<'p>: RunJob {
    /// Returns the job of the program's root thread, and the receiving end for the thread's outcome (result).
    fn begin(
        alloc: Global,
        program: &'p Program,
        spares: &mut Self::Spares,
    ) -> Result<(Self, OutcomeReceiver), AllocError>
        requires { IsChecked (source_of program.now) }
        ensures program { IfOk result (λ made. made.1.opening.key.program.value ≡ program.now) }
        ensures name { IfOk result (λ made. made.1.opening.key.name.value ≡ []) }
        ensures parent { IfOk result (λ made. Self.parent_of made.0 ≡ None) }
        ensures tag { IfOk result (λ made. Self.tag_of made.0 ≡ 0) };
}
