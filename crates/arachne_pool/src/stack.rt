//! A job and the descendants that run inside its slot, as a stack. Each job above the first was forked by the one below
//! it, and only the topmost one makes steps.
ghost use Rattle.std.specs.Prelude.{◌≡◌, ◌+◌, ◌<◌, ◌≤◌, [], ◌∷◌, List, None, IfSome, IsSome, MatchOption, length, false, true};
ghost use Rattle.arachne_pool.specs.Frames.{CountsEach, IsServed, KeepsMany, count_none, unless_ended};
ghost use Rattle.arachne_pool.specs.Jobs.{children_of};
ghost use Rattle.arachne_pool.specs.Stops.{rest_after};

use crate::handle::Cells;
use crate::job::{PoolJob, Step};
use crate::links::Links;
use crate::tally::Tally;
use arachne_core::{Rest, ThreadId};
use std::alloc::Global;
use std::collections::VecDeque;
use std::marker::Model;
use std::mem::replace;
use std::snapshot::Snapshot;

/// The reason why the jobs of a stack make no more steps for now.
#[derive(Clone, Copy, Debug, PartialEq, Eq)]
pub(crate) enum JobStop {
    /// The topmost job can go on, in this slice or, if its steps are used up, in the next.
    Goes,
    Waits,
    Sleeps,
    /// The job has forked a child, and the caller must try to claim a slot for it.
    Forks,
    /// A job has ended without joining all of its children, so the caller must detach those children by `let_go`.
    LetsGo,
    /// The first job has ended, and so have all others of the stack.
    Ends,
    /// Memory was refused, and the job's next slice tries the same again.
    NoMemory,
}

impl JobStop {
    #[inline(always)]
    pub(crate) fn rest(self) -> Rest
        ensures { result ≡ rest_after self }
    {
        match self {
            JobStop::Waits | JobStop::Sleeps => Rest::Blocked,
            JobStop::Goes | JobStop::Forks | JobStop::LetsGo | JobStop::Ends | JobStop::NoMemory =>
                Rest::Ready,
        }
    }
}

/// A job of a stack. `as_spawned` is the job before its first step, only for contracts. `awaited` is the number of the
/// job's unjoined children, without the child above it in the stack.
#[derive(Drop)]
struct JobFrame<J: PoolJob> {
    as_spawned: Snapshot<J>,
    job: J,
    awaited: usize,
}

impl<J: PoolJob> Model for JobFrame<J> {
    ghost use Rattle.arachne_pool.specs.Frames.{Framed};

    ghost Value = { Framed J };

    ghost view = { λ f. record { as_spawned = f.as_spawned.value; job = f.job; awaited = f.awaited } };
}

impl<J: PoolJob> JobFrame<J> {
    fn begin(job: J) -> JobFrame<J>
        ensures { result ≡ record { as_spawned = job; job = job; awaited = 0 } }
    {
        JobFrame {
            as_spawned: Snapshot::of(&job),
            job,
            awaited: 0,
        }
    }
}

/// The jobs that run inside one slot, as a stack. Each job waits for the child above it. `as_spawned` is the first job
/// before its first step, only for contracts.
#[derive(Drop)]
pub(crate) struct Stack<J: PoolJob> {
    as_spawned: Snapshot<J>,
    top: JobFrame<J>,
    below: Vec<JobFrame<J>>,
    /// The unjoined children of all jobs in this stack, except for children in the stack.
    pub(crate) links: Links<J>,
    /// A child that was just forked, and is not in `links` yet.
    child: Option<J>,
    /// The topmost job's result, if that job has ended.
    ended: Option<J::Output>,
    /// True if the topmost job waits for the result of its newest child.
    waits: bool,
}

impl<J: PoolJob> Model for Stack<J> {
    ghost use Rattle.std.specs.Prelude.{◌+◌, ◌++◌, map, reverse, take, vec_len};
    ghost use Rattle.arachne_pool.specs.Frames.{RunTogether, Stacked, count_none, count_one, unless_ended};
    ghost use Rattle.arachne_pool.specs.Jobs.{children_of};

    ghost Value = { Stacked J J.Output };

    ghost view = { λ s. record {
      as_spawned = s.as_spawned.value;
      many = count_none s.ended + vec_len s.below + s.links.aside + count_one s.child;
      jobs = children_of s.child (take s.links.aside s.links.all
          ++ children_of (unless_ended s.ended s.top.job) (map (λ f. f.job) (reverse s.below.items)));
      child = s.child;
      ended = s.ended;
      waits = s.waits;
    } };

    ghost invariant = { λ s. RunTogether J.is_result J.awaits s.top (reverse s.below.items) s.links.all s.child s.ended s.as_spawned.value };
}

impl<J: PoolJob> Stack<J> {
    pub(crate) fn begin(alloc: Global, job: J) -> Stack<J>
        requires { J.awaits job [] }
        ensures { result ≡ record { as_spawned = job; many = 1; jobs = job ∷ []; child = None; ended = None; waits = false } }
    {
        Stack {
            as_spawned: Snapshot::of(&job),
            top: JobFrame::begin(job),
            below: Vec::new(alloc),
            links: Links::new(alloc),
            child: None,
            ended: None,
            waits: false,
        }
    }

    pub(crate) fn job(&self) -> &J {
        &self.top.job
    }

    /// Returns `count` minus the number of unfinished jobs in this stack, or `None` if they are more.
    pub(crate) fn taken_from(&self, count: u64) -> Option<u64>
        ensures { MatchOption result (count < self.now.many) (λ rest. rest + self.now.many ≡ count) }
    {
        count
            .checked_sub(u64::from(self.ended.is_none()))?
            .checked_sub(self.below.len() as u64)?
            .checked_sub(self.links.aside() as u64)?
            .checked_sub(u64::from(self.child.is_some()))
    }

    /// Runs the jobs of the stack for at most `left` steps.
    ///
    /// Stops earlier if the topmost job waits or sleeps, if the first job has ended, or at a fork if `may_post` is
    /// true.
    #[tactic(auto, using(crate::proofs::Together::counting))]
    pub(crate) fn slice(
        &mut self,
        cells: &mut Cells<J>,
        tally: &mut Tally,
        left: &mut u32,
        may_post: bool,
    ) -> JobStop
        ensures as_spawned { self.new.as_spawned ≡ self.old.as_spawned }
        ensures left { left.new ≤ left.old }
        ensures counts { CountsEach tally.old tally.new self.old.many self.new.many }
    {
        // Each step can follow a join, and an end can follow the last one.
        for _ in 0..left.saturating_mul(2).saturating_add(1) {
            if *left == 0 && self.ended.is_none() {
                break;
            }
            match self.go_on(cells, tally, left, may_post) {
                JobStop::Goes => {}
                stop => return stop,
            }
        }
        JobStop::Goes
    }

    /// Carries out what the topmost job's last step has asked for (fork, wait or end), or else makes a step of it.
    fn go_on(
        &mut self,
        cells: &mut Cells<J>,
        tally: &mut Tally,
        left: &mut u32,
        may_post: bool,
    ) -> JobStop
        ensures as_spawned { self.new.as_spawned ≡ self.old.as_spawned }
        ensures left { left.new ≤ left.old }
        ensures counts { CountsEach tally.old tally.new self.old.many self.new.many }
    {
        if self.ended.is_some() {
            return self.pass_on();
        }
        if self.child.is_some() {
            return self.put_aside(may_post);
        }
        if self.waits {
            return self.receive(cells);
        }
        *left = left.saturating_sub(1);
        self.step(tally, may_post)
    }

    /// Makes a step of the topmost job, and counts in `tally` the child that it forks, or its end.
    fn step(&mut self, tally: &mut Tally, may_post: bool) -> JobStop
        requires running { (self.old.ended ≡ None) × (self.old.child ≡ None) × (self.old.waits ≡ false) }
        ensures as_spawned { self.new.as_spawned ≡ self.old.as_spawned }
        ensures counts { CountsEach tally.old tally.new self.old.many self.new.many }
    {
        match self.top.job.step() {
            Step::Again => JobStop::Goes,
            Step::Sleeps => JobStop::Sleeps,
            Step::Waits => {
                self.waits = true;
                JobStop::Goes
            }
            Step::Forks(child) => {
                tally.spawned = tally.spawned.saturating_add(1);
                self.child = Some(child);
                self.put_aside(may_post)
            }
            Step::Done(output) => {
                tally.ended = tally.ended.saturating_add(1);
                self.ended = Some(output);
                self.pass_on()
            }
        }
    }

    /// Adds the child that was just forked to those that wait inside this slot. If `may_post` is true (a slot may be
    /// free), returns `Forks`, so that the caller tries to claim one for the child. A count that can't grow is treated
    /// as refused memory.
    fn put_aside(&mut self, may_post: bool) -> JobStop
        requires { self.old.ended ≡ None }
        ensures { KeepsMany self.old self.new }
    {
        let Some(awaited) = self.top.awaited.checked_add(1) else {
            return JobStop::NoMemory;
        };
        let Some(child) = self.child.take() else {
            return JobStop::Goes;
        };
        match self.links.put_aside(child) {
            Ok(()) => {
                self.top.awaited = awaited;
                if may_post {
                    JobStop::Forks
                } else {
                    JobStop::Goes
                }
            }
            Err(child) => {
                self.child = Some(child);
                JobStop::NoMemory
            }
        }
    }

    /// Gives the topmost job its newest child's result, or begins that child here. Without a child the job goes on.
    fn receive(&mut self, cells: &mut Cells<J>) -> JobStop
        requires running { (self.old.ended ≡ None) × (self.old.child ≡ None) × (self.old.waits ≡ true) }
        ensures same { KeepsMany self.old self.new }
        ensures served { IsServed result self.new }
    {
        let Some(awaited) = self.top.awaited.checked_sub(1) else {
            self.waits = false;
            return JobStop::Goes;
        };
        if self.links.aside() > 0 {
            return self.enter();
        }
        match self.links.fetch_newest(cells) {
            Some(output) => {
                self.top.awaited = awaited;
                self.top.job.joined(output);
                self.waits = false;
                JobStop::Goes
            }
            None => JobStop::Waits,
        }
    }

    /// Begins the newest child, which has not begun, above the topmost job, which waits for it.
    fn enter(&mut self) -> JobStop
        requires running { (self.old.ended ≡ None) × (self.old.child ≡ None) × (self.old.waits ≡ true) }
        ensures same { KeepsMany self.old self.new }
        ensures served { IsServed result self.new }
    {
        if self.below.try_reserve(1).is_err() {
            return JobStop::NoMemory;
        }
        self.waits = false;
        let Some(awaited) = self.top.awaited.checked_sub(1) else {
            return JobStop::Goes;
        };
        let Some(child) = self.links.take_newest() else {
            return JobStop::Goes;
        };
        self.top.awaited = awaited;
        let frame = replace(&mut self.top, JobFrame::begin(child));
        self.below.push_reserved(frame);
        JobStop::Goes
    }

    /// Removes the topmost job, which has ended, and gives its result to the job below it. The first job stays, with
    /// its result. A job with unjoined children stays until these are detached.
    fn pass_on(&mut self) -> JobStop
        requires { IsSome self.old.ended }
        ensures same { KeepsMany self.old self.new }
        ensures served { IsServed result self.new }
    {
        if self.top.awaited > 0 {
            return JobStop::LetsGo;
        }
        let Some(output) = self.ended.take() else {
            return JobStop::Goes;
        };
        let Some(frame) = self.below.pop() else {
            self.ended = Some(output);
            return JobStop::Ends;
        };
        self.top = frame;
        self.top.job.joined(output);
        self.waits = false;
        JobStop::Goes
    }

    /// Returns the number of children that the topmost job never joined, if that job has ended.
    pub(crate) fn orphans(&self) -> usize {
        if self.ended.is_some() {
            self.top.awaited
        } else {
            0
        }
    }

    /// Removes one child that the topmost job, which has ended, never joined, and returns it if it had not begun.
    ///
    /// If `has_room` is false and a child that has not begun is left, changes nothing and returns `None`.
    pub(crate) fn let_go(&mut self, has_room: bool) -> Option<J>
        ensures room { IsSome result → has_room ≡ true }
        ensures as_spawned { self.new.as_spawned ≡ self.old.as_spawned }
        ensures many { MatchOption result (self.new.many ≡ self.old.many) (λ child. self.new.many + 1 ≡ self.old.many) }
        ensures fresh { IfSome result (λ child. J.awaits child []) }
    {
        if self.ended.is_none() || !has_room && self.links.aside() > 0 {
            return None;
        }
        self.top.awaited = self.top.awaited.checked_sub(1)?;
        self.links.forget_newest()
    }

    /// Returns the result of the first job, if that job has ended (`ended` is then its result, as no job is below).
    pub(crate) fn into_output(self) -> Option<J::Output>
        ensures result { IfSome result (J.is_result self.as_spawned) }
        ensures over { self.many ≡ 0 → IsSome result }
    {
        let Stack { below, ended, .. } = self;
        if below.is_empty() { ended } else { None }
    }

    /// Returns all unfinished jobs, and the result of the first job if that job has ended.
    pub(crate) fn into_jobs(self) -> (Jobs<J>, Option<J::Output>)
        ensures jobs { result.0 ≡ self.jobs }
        ensures many { length result.0 ≡ self.many }
        ensures output { IfSome result.1 (J.is_result self.as_spawned) }
    {
        let Stack {
            top,
            below,
            links,
            child,
            ended,
            ..
        } = self;
        let top = unless_ended(&ended, top.job);
        let output = if below.is_empty() { ended } else { None };
        let jobs = Jobs {
            top,
            below,
            aside: links.into_aside(),
            child,
        };
        (jobs, output)
    }
}

fn unless_ended<J: PoolJob>(ended: &Option<J::Output>, job: J) -> Option<J>
    ensures job { result ≡ unless_ended ended.now job }
    ensures count { (others : List J) → length (children_of result others) ≡ count_none ended.now + length others }
{
    match ended {
        Some(_) => None,
        None => Some(job),
    }
}

/// The unfinished jobs inside one slot of a closed pool. The caller may spawn again those that had not begun.
///
/// In contracts, the value is the list of the jobs in the order in which `take` returns them.
#[derive(Drop)]
pub struct Jobs<J: PoolJob> {
    child: Option<J>,
    aside: VecDeque<J>,
    top: Option<J>,
    below: Vec<JobFrame<J>>,
}

impl<J: PoolJob> Model for Jobs<J> {
    ghost use Rattle.std.specs.Prelude.{List, ◌++◌, map, reverse};
    ghost use Rattle.arachne_pool.specs.Jobs.{children_of};

    ghost Value = { List J };

    ghost view = { λ j. children_of j.child (reverse j.aside.items ++ children_of j.top (map (λ f. f.job) (reverse j.below.items))) };
}

impl<J: PoolJob> Jobs<J> {
    /// Removes and returns a job, if one is left. Jobs that had not begun come before the others. In both groups the
    /// newest job comes first.
    pub fn take(&mut self) -> Option<J>
        ensures { MatchOption result ((self.old ≡ []) × (self.new ≡ [])) (λ job. self.old ≡ job ∷ self.new) }
    {
        if let Some(child) = self.child.take() {
            return Some(child);
        }
        if let Some(child) = self.aside.pop_back() {
            return Some(child);
        }
        if let Some(job) = self.top.take() {
            return Some(job);
        }
        Some(self.below.pop()?.job)
    }
}
