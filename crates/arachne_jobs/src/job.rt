//! A job: a thread of the program with a thread slot of its own, in a box.
ghost use Rattle.std.specs.Prelude.{◌≡◌, ◌≤◌, ◌<◌, false, vec_capacity, vec_len, IfNone, IfOk, IfSome, IsSome, OnErr, OnOk, None, Some};
ghost use Rattle.arachne_machine.specs.Nested.{with_tag};
ghost use Rattle.arachne_jobs.specs.Cells.{IsFor};
ghost use Rattle.arachne_jobs.specs.Dues.{HasTallied, due_to};
ghost use Rattle.arachne_jobs.specs.Slices.{HasNoRest, IsLeft, IsRequest, MayRest, UsesSteps};
ghost use Rattle.arachne_jobs.specs.Threads.{HasWaited, IsJobForking, job_name, job_parent, job_pause, job_running_tag, job_tag};

use crate::ends::{End, WaitEnd};
use crate::fault::JobFault;
use crate::left::Waiting;
use crate::openings::Openings;
use crate::parts::Parts;
use crate::room::Room;
use crate::slice::{JobOf, RunJob, RunThread, Slice};
use crate::spares::JobSpares;
use crate::waiting::{Ticket, WaitCell};
use crate::wanted::{OutcomeReceiver, Wanted};
use arachne_contexts::Tagged;
use arachne_core::{Rest, ThreadId};
use arachne_machine::{Pending, Thread};
use arachne_program::{Name, Program};
use std::alloc::{AllocError, Global};
use std::marker::Model;

/// A thread of the program with a thread slot of its own, in a box, so that a run's table of threads stores and moves a
/// job as one word.
#[derive(Drop)]
pub struct Job<'p> {
    /// Never `None` in a job. When the job ends, the empty box is kept for a later job.
    parts: Box<Option<Parts<'p>>>,
}

impl<'p> Model for Job<'p> {
    ghost use Rattle.std.specs.Prelude.{IsSome, Option};
    ghost use Rattle.arachne_jobs.specs.Threads.{Posted};

    ghost Value = { Option Posted };

    ghost use Rattle.std.specs.Coded.{codes};
    ghost use Rattle.arachne_program.specs.contracts.program.Expr as expr;

    ghost coded = { Prim.hlevel (codes, expr.the_row.coded) };

    ghost view = { λ j. j.parts.value };

    ghost invariant = { λ j. IsSome j.parts.value };
}

impl<'p> Job<'p> {
    /// Makes a job, in memory of ended jobs if there is some, and the receiving end for its outcome (result).
    #[inline(always)]
    fn of(
        alloc: Global,
        thread: Thread<'p>,
        parent: Option<ThreadId>,
        spares: &mut JobSpares<'p>,
    ) -> Result<(Job<'p>, OutcomeReceiver), AllocError>
        ensures job { IfOk result (λ made. made.0 ≡ Some (record { thread = thread.entry; parent = parent })) }
        ensures receiver { IfOk result (λ made. IsFor thread.entry made.1.opening.key) }
    {
        let wanted = Wanted::of(&thread, parent);
        let mut parts = spares.boxes.take(alloc)?;
        let mut ties = spares.ties.take(alloc, parent)?;
        let contents = spares.threads.take_contents()?;
        let (receiver, sender) = spares.cells.open(alloc, &wanted)?;
        ties.ends.push_reserved(End::Leaves(sender));
        *parts = Some(Parts {
            thread,
            ties,
            contents,
            waits: Vec::new(alloc),
        });
        Ok((Job { parts }, receiver))
    }

    #[inline(always)]
    fn parts(&self) -> &Parts<'p>
        ensures { self.now ≡ Some result.now }
    {
        match &*self.parts {
            Some(parts) => parts,
            None => unreachable!(),
        }
    }
}

impl<'p> Tagged for Job<'p> {
    ghost tag_of = { job_tag };

    fn tag(&self) -> u64 {
        self.parts().thread.tag()
    }
}

impl<'p> RunThread for Job<'p> {
    ghost name_of = { job_name };

    ghost running_tag_of = { job_running_tag };

    ghost parent_of = { job_parent };

    ghost pause_of = { job_pause };

    #[inline(always)]
    fn name(&self) -> &Name {
        self.parts().thread.name()
    }

    fn running_tag(&self) -> u64 {
        self.parts().thread.running_tag()
    }

    #[inline(always)]
    fn rest(&self) -> Option<Rest>
        ensures rests { IfSome result (λ rest. MayRest rest (job_pause self.now)) }
        ensures none { IfNone result (HasNoRest (job_pause self.now)) }
    {
        match self.parts().thread.pending() {
            None => Some(Rest::Ready),
            Some(Pending::Joins | Pending::Asks(_)) => Some(Rest::Blocked),
            _ => None,
        }
    }

    #[inline(always)]
    fn answer(&mut self) -> Result<(), JobFault>
        ensures tag { job_tag self.new ≡ job_tag self.old }
        ensures parent { job_parent self.new ≡ job_parent self.old }
        ensures asked { OnOk result (IsRequest (job_pause self.old)) }
        ensures answered { OnOk result (job_pause self.new ≡ None) }
        ensures foreign { OnErr result (¬ IsRequest (job_pause self.old)) }
    {
        let Some(parts) = &mut *self.parts else {
            unreachable!()
        };
        match parts.thread.pending() {
            Some(Pending::Asks(_)) => parts.thread.granted(),
            Some(Pending::Frees(_)) => parts.thread.freed(),
            Some(Pending::Tallies(_, _)) => parts.thread.tallied(),
            _ => return Err(JobFault::Foreign),
        }
        Ok(())
    }
}

impl<'p> RunJob for Job<'p> {
    type Child = Thread<'p>;

    type Ticket = Ticket<'p>;

    type Spares = JobSpares<'p>;

    ghost forks = { IsJobForking };

    #[inline(always)]
    fn slice(
        &mut self,
        left: &mut u32,
        spares: &mut JobSpares<'p>,
        room: &Room,
        openings: &mut Openings,
    ) -> Result<Slice<Thread<'p>>, JobFault>
        requires { 1 ≤ left.old }
        ensures tag { job_tag self.new ≡ job_tag self.old }
        ensures steps { IfOk result (λ slice. UsesSteps slice left.old left.new) }
        ensures parent { job_parent self.new ≡ job_parent self.old }
        ensures left { IfOk result (λ slice. IsLeft IsJobForking job_pause slice self.new) }
        ensures tallied { OnOk result (IfSome self.old (λ old. IfSome self.new (λ new.
            HasTallied left.old left.new old.thread new.thread (due_to openings.old.due) (due_to openings.new.due)))) }
    {
        let Some(parts) = &mut *self.parts else {
            unreachable!()
        };
        match parts.thread.pending() {
            None => {}
            Some(Pending::Joins) => {
                if !parts.join(spares)? {
                    return Ok(Slice::Blocks);
                }
            }
            Some(Pending::Asks(lock)) => return Ok(Slice::Awaits(lock)),
            _ => return Err(JobFault::Foreign),
        }
        parts.advance(left, spares, room, openings)
    }

    #[inline(always)]
    fn fork_off(
        &mut self,
        alloc: Global,
        me: ThreadId,
        child: Thread<'p>,
        tag: u64,
        spares: &mut JobSpares<'p>,
    ) -> Result<Job<'p>, JobFault>
        requires { IsJobForking self.old child }
        ensures tag { job_tag self.new ≡ job_tag self.old }
        ensures parent { job_parent self.new ≡ job_parent self.old }
        ensures child { IfOk result (λ job. job_tag job ≡ tag) }
        ensures made { IfOk result (λ job. IfSome job (λ made. made.thread ≡ record child.entry { running = with_tag tag child.entry.running })) }
        ensures childs_parent { IfOk result (λ job. job_parent job ≡ Some me) }
        ensures answered { OnOk result (job_pause self.new ≡ None) }
    {
        let Some(parts) = &mut *self.parts else {
            unreachable!()
        };
        let mut child = child;
        child.set_tag(tag);
        let (job, receiver) = Job::of(alloc, child, Some(me), spares)?;
        parts.add_receiver(receiver)?;
        parts.thread.forked();
        Ok(job)
    }

    /// A waiting child gets two entries: `End::Waits` in `ties`, which keeps the order of the forks, and its cell in
    /// `waits`.
    fn put_aside(
        &mut self,
        alloc: Global,
        me: ThreadId,
        child: Thread<'p>,
        tag: u64,
        waits: bool,
    ) -> Result<Option<Ticket<'p>>, JobFault>
        requires { IsJobForking self.old child }
        ensures tag { job_tag self.new ≡ job_tag self.old }
        ensures parent { job_parent self.new ≡ job_parent self.old }
        ensures answered { OnOk result (job_pause self.new ≡ None) }
        ensures ticket { IfOk result (λ made. IfSome made (λ ticket. ticket.key.tag.value ≡ tag)) }
        ensures childs_parent { IfOk result (λ made. IfSome made (λ ticket. ticket.key.parent.value ≡ Some me)) }
        ensures asked { waits ≡ false → IfOk result (λ made. made ≡ None) }
    {
        let Some(parts) = &mut *self.parts else {
            unreachable!()
        };
        let mut child = child;
        child.set_tag(tag);
        if !waits {
            parts.run_inside(child)?;
            return Ok(None);
        }
        // Memory is reserved first, because the child can't be taken back when its ticket is in the queue.
        if reserve_both(&mut parts.ties.ends, &mut parts.waits).is_err() {
            parts.run_inside(child)?;
            return Ok(None);
        }
        match WaitCell::wait(alloc, child, me) {
            Ok((cell, ticket)) => {
                parts.waits.push_reserved(WaitEnd { cell, end: None });
                parts.ties.ends.push_reserved(End::Waits);
                parts.thread.forked();
                Ok(Some(ticket))
            }
            Err(child) => {
                parts.run_inside(child)?;
                Ok(None)
            }
        }
    }

    fn of_ticket(alloc: Global, ticket: Ticket<'p>, spares: &mut JobSpares<'p>) -> Option<Job<'p>>
        ensures parent { IfSome result (λ job. IsSome (job_parent job)) }
        ensures whose { IfSome result (λ job. job_parent job ≡ ticket.entry.key.parent.value) }
        ensures tag { IfSome result (λ job. job_tag job ≡ ticket.entry.key.tag.value) }
        ensures waited { IfSome result (λ job. IfSome job (λ made. HasWaited made.thread)) }
    {
        let mut parts = spares.boxes.take(alloc).ok()?;
        let mut waits = Vec::with_capacity(alloc, 1).ok()?;
        let mut ties = spares.ties.take(alloc, None).ok()?;
        let contents = spares.threads.take_contents().ok()?;
        // The child is taken out of its cell last, so that it still waits for its parent if memory was refused before.
        let Some((waiting, cell, end)) = ticket.take() else {
            spares.boxes.keep(parts);
            spares.ties.keep(ties);
            spares.threads.keep_contents(contents);
            return None;
        };
        let Waiting { mut thread, parent } = waiting;
        thread.set_spilled();
        ties.ends.push_reserved(End::Waits);
        waits.push_reserved(WaitEnd {
            cell,
            end: Some(end),
        });
        ties.parent = Some(parent);
        *parts = Some(Parts {
            thread,
            ties,
            contents,
            waits,
        });
        Some(Job { parts })
    }

    /// Each end of a child was removed when this job joined the child, so the last end is for the job's own outcome.
    #[inline(always)]
    fn leave(self, spares: &mut JobSpares<'p>) -> Result<Option<ThreadId>, JobFault> {
        let Job { mut parts } = self;
        let Some(left) = parts.take() else {
            unreachable!()
        };
        spares.boxes.keep(parts);
        let Parts {
            thread,
            mut ties,
            contents,
            mut waits,
        } = left;
        if thread.pending() != Some(Pending::Ended) {
            return Err(JobFault::Foreign);
        }
        let Some(end) = ties.ends.pop() else {
            return Err(JobFault::Foreign);
        };
        let outcome = thread.finish_into(contents, &mut spares.threads);
        match end {
            End::Leaves(sender) => sender.leave(outcome),
            End::Waits => {
                let Some(wait) = waits.pop() else {
                    return Err(JobFault::Foreign);
                };
                let WaitEnd { cell, end } = wait;
                let Some(end) = end else {
                    return Err(JobFault::Foreign);
                };
                let _ = cell.leave(end, outcome);
            }
            End::Awaits(_) => return Err(JobFault::Foreign),
        }
        let parent = ties.parent;
        spares.ties.keep(ties);
        Ok(parent)
    }
}

impl<'p> JobOf<'p> for Job<'p> {
    fn begin(
        alloc: Global,
        program: &'p Program,
        spares: &mut JobSpares<'p>,
    ) -> Result<(Job<'p>, OutcomeReceiver), AllocError> {
        let thread = Thread::start(alloc, program, 0)?;
        Job::of(alloc, thread, None, spares)
    }
}

fn reserve_both<A: Drop, B: Drop>(one: &mut Vec<A>, other: &mut Vec<B>) -> Result<(), AllocError>
    ensures one { one.new.items ≡ one.old.items }
    ensures other { other.new.items ≡ other.old.items }
    ensures room { OnOk result ((vec_len one.new < vec_capacity one.new) × (vec_len other.new < vec_capacity other.new)) }
{
    one.try_reserve(1)?;
    other.try_reserve(1)?;
    Ok(())
}
