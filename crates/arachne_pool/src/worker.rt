//! A worker: one kernel thread's access to a pool. A worker can be split in two, for another kernel thread, and two
//! workers can be joined again.
ghost use Rattle.std.specs.Option.{option_or};
ghost use Rattle.std.specs.Prelude.{◌≡◌, ◌+◌, ◌<◌, ◌≤◌, [], ◌++◌, IfErr, IfOk, IfSome, IsOk, IsSome, None, OnErr, if◌then◌else◌, false, true};
ghost use Rattle.std.specs.VecDeque.{deque_capacity, deque_len};
ghost use Rattle.arachne_pool.specs.Jobs.{count_near, one};
ghost use Rattle.arachne_pool.specs.Leftover.{HalvesWeight, JoinsWeights};
ghost use Rattle.arachne_pool.specs.Workers.{HasMadeNoStep, HasNoCore, IsIdleAt, IsWorkerOf};

use crate::handle::{Cells, Handle, WantedResult};
use crate::job::PoolJob;
use crate::pool::Pool;
use crate::spawned::Spawned;
use crate::tally::Tally;
use arachne_arbiter::{Arbiter, Backoff};
use arachne_contexts::Seats;
use arachne_workers::{Halt, RunQueue};
use rand_core::{Rng, SeedableRng};
use rand_xoshiro::Xoshiro256PlusPlus;
use std::alloc::Global;
use std::collections::VecDeque;
use std::marker::Model;
use std::snapshot::Snapshot;
use std::sync::Wait;
use thiserror::Error;

/// The reason why a call with a worker has failed.
#[derive(Clone, Copy, Debug, PartialEq, Eq, Error)]
pub enum PoolFault {
    /// Memory was refused. No job is lost, except by `Unfinished::Lost`. A worker whose call returns this can be used
    /// again.
    #[error("out of memory")]
    Memory,
    /// The table has rejected a slot or a job that it had given to the worker. The worker can't use the table any more.
    #[error("the table knows no such token")]
    Token,
    #[error("the pool was stopped")]
    Stopped,
    /// The system started no kernel thread for a core. Only `Pool::run` reports this.
    #[error("a kernel thread was refused")]
    KernelThread,
}

/// Returns the error of a call in which the table has rejected a slot or a job that it had given to the worker.
pub(crate) fn disowned() -> Halt {
    Halt::Token
}

/// A worker's loop fails only if the table rejects a slot or a job, so each `Halt` becomes `Token`.
impl From<Halt> for PoolFault {
    ghost use Rattle.std.specs.Prelude.{◌≡◌};
    ghost use Rattle.arachne_pool.specs.declared.worker.PoolFault.TheVariants.{Token};

    ghost from_gives = { λ _ fault. fault ≡ Token };

    fn from(_: Halt) -> PoolFault {
        PoolFault::Token
    }
}

/// The data of a worker that its loop and its calls share.
#[derive(Drop)]
pub(crate) struct WorkerState<J: PoolJob> {
    pub(crate) alloc: Global,
    /// The jobs that wait for a slot before their first step, the oldest first.
    pub(crate) near: VecDeque<Spawned<J>>,
    pub(crate) cells: Cells<J>,
    /// Draws the cores on which a slot is looked for.
    pub(crate) chooser: Xoshiro256PlusPlus,
    pub(crate) tally: Tally,
    /// The part of `tally` that was reported to the pool.
    pub(crate) reported: Tally,
    pub(crate) orders: Option<Arbiter>,
    /// True if memory was refused, and no call has returned this as an error yet.
    pub(crate) lacks_memory: bool,
    /// True if a job has ended since this field was last read.
    pub(crate) has_ended: bool,
}

impl<J: PoolJob> WorkerState<J> {
    /// Counts `job` as spawned, and returns it with its handle; reserves memory for it in the queue `near`. If memory
    /// is refused, returns the job.
    pub(crate) fn begin(&mut self, job: J) -> Result<(Handle<J>, Spawned<J>), J>
        requires fresh { J.awaits job [] }
        ensures handle { IfOk result (λ begun. begun.0 ≡ job) }
        ensures job { IfOk result (λ begun. begun.1 ≡ one (J.tag_of job) job None) }
        ensures room { IfOk result (λ _. deque_len self.new.near < deque_capacity self.new.near) }
        ensures near { self.new.near.items ≡ self.old.near.items }
        ensures spawned { IfOk result (λ _. self.old.tally.spawned < u64.MAX → self.new.tally.spawned ≡ self.old.tally.spawned + 1) }
        ensures ended { self.new.tally.ended ≡ self.old.tally.ended }
        ensures refused { OnErr result (self.new.tally ≡ self.old.tally) }
        ensures handed_back { IfErr result (λ back. back ≡ job) }
        ensures same { self.new ≡ record self.old { near = self.new.near; cells = self.new.cells; tally = self.new.tally } }
    {
        if self.near.reserve(1).is_err() {
            return Err(job);
        }
        let wanted = WantedResult {
            job: Snapshot::of(&job),
        };
        let Ok((receiver, sender)) = self.cells.open(self.alloc, &wanted) else {
            return Err(job);
        };
        self.tally.spawned = self.tally.spawned.saturating_add(1);
        let begun = Spawned::begin(self.alloc, job, Some(sender), None);
        Ok((Handle { receiver }, begun))
    }

    /// Detaches the children that an ended job has not joined, and moves those that have not begun to the queue `near`.
    /// If memory for such a child is refused, sets `lacks_memory` and returns false.
    #[tactic(auto, using(crate::proofs::Counts::count_near_push))]
    pub(crate) fn let_go(&mut self, job: &mut Spawned<J>) -> bool
        ensures same { self.new ≡ record self.old { near = self.new.near; lacks_memory = if result then self.old.lacks_memory else true } }
        ensures job { job.new ≡ record job.old { many = job.new.many; jobs = job.new.jobs } }
        ensures many { count_near self.new.near.items + job.new.many ≡ count_near self.old.near.items + job.old.many }
    {
        for _ in 0..job.stack.orphans() {
            let has_room = self.near.reserve(1).is_ok();
            if !has_room && job.stack.links.aside() > 0 {
                self.lacks_memory = true;
                return false;
            }
            // Without room, the children that are left have begun elsewhere, and take none.
            if let Some(orphan) = job.let_go(self.alloc, has_room) {
                self.near.push_back_reserved(orphan);
            }
        }
        true
    }

    /// Returns the counts that were not reported to the pool yet, and counts them as reported.
    pub(crate) fn take_unreported(&mut self) -> Tally
        ensures same { self.new ≡ record self.old { reported = self.new.tally } }
        ensures spawned { self.old.reported.spawned ≤ self.old.tally.spawned → self.old.reported.spawned + result.spawned ≡ self.old.tally.spawned }
        ensures ended { self.old.reported.ended ≤ self.old.tally.ended → self.old.reported.ended + result.ended ≡ self.old.tally.ended }
    {
        let unreported = Tally {
            spawned: self.tally.spawned.wrapping_sub(self.reported.spawned),
            ended: self.tally.ended.wrapping_sub(self.reported.ended),
        };
        self.reported = self.tally;
        unreported
    }
}

/// A worker, by which a kernel thread uses a pool: it runs the jobs of one core. One kernel thread at a time uses it.
///
/// Contracts see the worker's right to use the table (`seat`), its orders to open or close cores, its waiting jobs, its
/// counts of jobs and its core. Contracts also see the run queue, which counts steps since the worker last checked for
/// a stop and for orders.
#[derive(Drop)]
pub struct Worker<S, J: PoolJob> {
    pub(crate) seat: Option<S>,
    pub(crate) state: WorkerState<J>,
    /// The core on which the worker last worked, or at first `u8::MAX`, which is no core.
    pub(crate) core: u8,
    pub(crate) queue: RunQueue,
    pub(crate) backoff: Backoff,
}

impl<S, J: PoolJob> Model for Worker<S, J> {
    ghost use Rattle.arachne_pool.specs.Workers.{WorkerView};

    ghost Value = { WorkerView S J };

    ghost view = { λ w. record {
      seat = w.seat;
      waiting = w.state.near.items;
      tally = w.state.tally;
      told = w.state.reported;
      arbiter = w.state.orders;
      core = w.core;
      queue = w.queue;
    } };
}

impl<S, J: PoolJob> Worker<S, J> {
    /// Returns how many jobs the worker has spawned, including forks on its core, and how many have ended on its core.
    pub fn tally(&self) -> Tally
        ensures { result ≡ self.now.tally }
    {
        self.state.tally
    }

    /// Returns a worker whose random generator begins with `seed`.
    pub(crate) fn new(alloc: Global, seat: Option<S>, seed: u64) -> Worker<S, J>
        ensures seat { result.seat ≡ seat }
        ensures nothing { (result.tally.spawned ≡ 0) × (result.tally.ended ≡ 0) }
        ensures untold { (result.told ≡ result.tally) × (result.waiting ≡ []) }
        ensures orders { result.arbiter ≡ None }
        ensures core { result.core ≡ u8.MAX }
        ensures lag { HasMadeNoStep result }
    {
        let none = Tally {
            spawned: 0,
            ended: 0,
        };
        let state = WorkerState {
            alloc,
            near: VecDeque::new(alloc),
            cells: Cells::new(alloc),
            chooser: Xoshiro256PlusPlus::seed_from_u64(seed),
            tally: none,
            reported: none,
            orders: None,
            lacks_memory: false,
            has_ended: false,
        };
        Worker {
            seat,
            state,
            core: u8::MAX,
            queue: RunQueue::new(alloc, None),
            backoff: Backoff::new(),
        }
    }
}

impl<C: Seats> Pool<C> {
    /// Splits a worker in two, so that another kernel thread can use the pool.
    ///
    /// The first worker keeps the waiting jobs, the counts of jobs, the orders and the core. The second worker has no
    /// core yet, and gets half of the right to use the table, if `worker` has that right. Before `close`, all workers
    /// must be joined.
    pub fn split<H: Wait, J: PoolJob>(
        &self,
        rt: &H,
        worker: Worker<C::Seat, J>,
    ) -> (Worker<C::Seat, J>, Worker<C::Seat, J>)
        requires { IsWorkerOf self.now worker }
        ensures own { IsWorkerOf self.now result.0 }
        ensures others { IsWorkerOf self.now result.1 }
        ensures kept { result.0 ≡ record worker { seat = result.0.seat } }
        ensures nothing { (result.1.tally.spawned ≡ 0) × (result.1.tally.ended ≡ 0) × (result.1.arbiter ≡ None) }
        ensures untold { (result.1.told ≡ result.1.tally) × (result.1.waiting ≡ []) }
        ensures cores { HasNoCore self.now.cores result.1 }
        ensures lag { HasMadeNoStep result.1 }
        ensures seats { IsSome worker.seat → IsSome result.0.seat × IsSome result.1.seat }
        ensures weight { HalvesWeight C.weight worker.seat result.0.seat result.1.seat }
    {
        let mut worker = worker;
        let seed = worker.state.chooser.next_u64();
        let alloc = worker.state.alloc;
        let Some(seat) = worker.seat.take() else {
            return (worker, Worker::new(alloc, None, seed));
        };
        let (own, theirs) = self.table.split(rt, seat);
        worker.seat = Some(own);
        (worker, Worker::new(alloc, Some(theirs), seed))
    }

    /// Joins two workers into one, which has the core of `worker`.
    ///
    /// The new worker has the orders (to open or close cores) of `worker`, or those of `other` if `worker` has none.
    /// The new worker can use the table if both workers could. If memory for the waiting jobs is refused, returns both
    /// workers. If `other` has no waiting jobs, the workers are always joined.
    pub fn join_workers<H: Wait, J: PoolJob>(
        &self,
        rt: &H,
        worker: Worker<C::Seat, J>,
        other: Worker<C::Seat, J>,
    ) -> Result<Worker<C::Seat, J>, (Worker<C::Seat, J>, Worker<C::Seat, J>)>
        requires worker { IsWorkerOf self.now worker }
        requires other { IsWorkerOf self.now other }
        ensures both { IfOk result (IsWorkerOf self.now) }
        ensures waiting { IfOk result (λ both. both.waiting ≡ worker.waiting ++ other.waiting) }
        ensures same { IfOk result (λ both. (both.core ≡ worker.core) × (both.queue ≡ worker.queue)) }
        ensures seat { IfOk result (λ both. IsSome worker.seat → IsSome other.seat → IsSome both.seat) }
        ensures weight { IfOk result (λ both. JoinsWeights C.weight worker.seat other.seat both.seat) }
        ensures spare { other.waiting ≡ [] → IsOk result }
        ensures told { IfOk result (λ both. both.told ≡ both.tally) }
        ensures orders { IfOk result (λ both. both.arbiter ≡ option_or worker.arbiter other.arbiter) }
        ensures spawned { worker.tally.spawned + other.tally.spawned ≤ u64.MAX → IfOk result (λ both. both.tally.spawned ≡ worker.tally.spawned + other.tally.spawned) }
        ensures ended { worker.tally.ended + other.tally.ended ≤ u64.MAX → IfOk result (λ both. both.tally.ended ≡ worker.tally.ended + other.tally.ended) }
        ensures first_back { IfErr result (λ back. back.0 ≡ worker) }
        ensures second_back { IfErr result (λ back. back.1 ≡ other) }
    {
        let (mut worker, mut other) = (worker, other);
        if worker.state.near.append(&mut other.state.near).is_err() {
            return Err((worker, other));
        }
        // Both workers have reported their counts to the pool.
        worker.state.tally = worker.state.tally.plus(other.state.tally);
        worker.state.reported = worker.state.tally;
        worker.state.orders = worker.state.orders.take().or(other.state.orders.take());
        worker.seat = self.join_seats(rt, worker.seat.take(), other.seat.take());
        Ok(worker)
    }

    /// Joins two seats. If one is missing, returns `None`, and the pool can't be closed any more.
    pub(crate) fn join_seats<H: Wait>(
        &self,
        rt: &H,
        first: Option<C::Seat>,
        second: Option<C::Seat>,
    ) -> Option<C::Seat>
        requires first { IfSome first (IsIdleAt C.sits C.idle self.now.table) }
        requires second { IfSome second (IsIdleAt C.sits C.idle self.now.table) }
        ensures idle { IfSome result (IsIdleAt C.sits C.idle self.now.table) }
        ensures one { IsSome first → IsSome second → IsSome result }
        ensures weight { JoinsWeights C.weight first second result }
    {
        Some(self.table.join_seats(rt, first?, second?))
    }
}
