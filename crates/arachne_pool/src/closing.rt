//! Closes a pool, and replaces the orders that close and open its cores.
ghost use Rattle.std.specs.Prelude.{◌≡◌, ◌+◌, ◌<◌, ◌≤◌, ◌↔◌, IfErr, IfOk, IfSome, IsSome, IsTrue, MatchOption, OnErr, OnOk};
ghost use Rattle.arachne_policy.specs.Orders.{AreInOrder};
ghost use Rattle.arachne_pool.specs.Leftover.{IsWhole, count_of};
ghost use Rattle.arachne_pool.specs.Workers.{ComeLast, IsWorkerOf};

use crate::job::PoolJob;
use crate::pool::Pool;
use crate::spawned::Spawned;
use crate::tally::Tally;
use crate::worker::{Worker, WorkerState};
use arachne_arbiter::Arbiter;
use arachne_contexts::{Contexts, Seats};
use arachne_core::ThreadId;
use arachne_policy::{CoreOrder, OrderKind};
use std::alloc::{AllocError, Global};
use std::collections::VecDeque;
use std::sync::Wait;

/// The unfinished jobs of a closed pool, each with the children that run or wait inside its slot.
#[derive(Drop)]
pub struct Left<J: PoolJob> {
    /// The jobs that had a slot, each with its id, sorted by the number of the job's context.
    pub placed: Vec<(ThreadId, Spawned<J>)>,
    /// The jobs that waited for a slot in the worker's queue, the oldest first.
    pub near: VecDeque<Spawned<J>>,
}

impl<J: PoolJob> Left<J> {
    /// Returns true if no job is left in a slot or the queue.
    pub fn is_empty(&self) -> bool
        ensures { IsTrue result → count_of self.now ≡ 0 }
    {
        self.placed.is_empty() && self.near.is_empty()
    }

    /// Returns `count` minus the number of unfinished jobs, or `None` if there are more than `count` such jobs.
    #[tactic(auto, using(crate::proofs::Counts::placed_counts))]
    fn taken_from(&self, count: u64) -> Option<u64>
        ensures { MatchOption result (count < count_of self.now) (λ rest. rest + count_of self.now ≡ count) }
    {
        let mut rest = count;
        let placed = self.placed.as_slice();
        for entry in placed {
            rest = entry.1.taken_from(rest)?;
        }
        for job in self.near.iter() {
            rest = job.taken_from(rest)?;
        }
        Some(rest)
    }
}

/// The error of `Pool::close`, with the values that the call returns to the caller.
#[derive(Drop)]
pub enum NotClosed<C: Seats, J: PoolJob> {
    /// Another worker can still use the table, or this worker can't. Fields: the unchanged pool and worker.
    NotWhole(Pool<C>, Worker<C::Seat, J>),
    /// Memory was refused. Fields: the table, the right to use the table, and the jobs that had no slot.
    Memory(C, C::Seat, VecDeque<Spawned<J>>),
    /// The unfinished jobs are not as many as the counts of spawned and ended jobs say. Field: the unfinished jobs.
    Lost(Left<J>),
}

impl<C: Seats> Pool<C> {
    ghost use Rattle.arachne_pool.specs.NotClosed.{ComesBack};

    /// Replaces the orders by which `worker` closes and opens cores. Give all orders of a pool to one worker.
    ///
    /// Drops the old orders that were not carried out yet. A core that an old order has closed stays closed until a new
    /// order opens it: the new list begins with an order that closes it again. No order closes core 0. If memory is
    /// refused, returns an error, and the worker keeps its old orders.
    pub fn order<H: Wait, J: PoolJob>(
        &self,
        rt: &H,
        worker: &mut Worker<C::Seat, J>,
        orders: Vec<CoreOrder>,
    ) -> Result<(), AllocError>
    where
        C: Contexts<Spawned<J>>,
        requires worker { IsWorkerOf self.now worker.old }
        requires orders { AreInOrder self.now.cores orders.items }
        ensures worker { IsWorkerOf self.now worker.new }
        ensures same { worker.new ≡ record worker.old { arbiter = worker.new.arbiter } }
        ensures orders { OnOk result (IfSome worker.new.arbiter (λ arbiter. ComeLast orders.items arbiter.list × (arbiter.applied ≡ 0))) }
        ensures given { OnOk result (IsSome worker.new.arbiter) }
        ensures refused { OnErr result (worker.new ≡ worker.old) }
    {
        let mut orders = orders;
        for core in 1..self.cores {
            if self.glance::<H, J>(rt, core).is_closed() {
                let closes = CoreOrder {
                    after: 0,
                    kind: OrderKind::Release,
                    core: u64::from(core),
                };
                orders.insert(0, closes)?;
            }
        }
        worker.state.orders = Some(Arbiter::new(worker.state.alloc, orders, self.cores)?);
        Ok(())
    }

    /// Closes the pool, and returns all jobs that were spawned and have not ended.
    ///
    /// A `Handle` of an ended job still gives the result. Returns `NotWhole` if another worker wasn't joined.
    pub fn close<H: Wait, J: PoolJob>(
        self,
        rt: &H,
        alloc: Global,
        worker: Worker<C::Seat, J>,
    ) -> Result<Left<J>, NotClosed<C, J>>
    where
        C: Contexts<Spawned<J>>,
        requires { IsWorkerOf self worker }
        ensures each_once { IfOk result (λ left. worker.tally.spawned ≡ worker.tally.ended + count_of left) }
        ensures near { IfOk result (λ left. left.near.items ≡ worker.waiting) }
        ensures comes_back { IfErr result (ComesBack self worker) }
    {
        if !self.is_whole(&worker) {
            return Err(NotClosed::NotWhole(self, worker));
        }
        let Worker { seat, state, .. } = worker;
        let Some(seat) = seat else { unreachable!() };
        let Pool { table, .. } = self;
        let WorkerState { near, tally, .. } = state;
        let placed = match table.close(rt, alloc, seat) {
            Ok(placed) => placed,
            Err((table, seat)) => return Err(NotClosed::Memory(table, seat, near)),
        };
        let left = Left { placed, near };
        if tally.is_over(&left) {
            Ok(left)
        } else {
            Err(NotClosed::Lost(left))
        }
    }

    /// Returns true if the worker's seat is the table's only one: all other workers were joined into this one.
    fn is_whole<J: PoolJob>(&self, worker: &Worker<C::Seat, J>) -> bool
        ensures { IsTrue result ↔ IsWhole C.weight worker.now.seat }
    {
        match &worker.seat {
            Some(seat) => self.table.is_whole(seat),
            None => false,
        }
    }
}

impl Tally {
    /// Returns true if `left` has as many jobs as were spawned and have not ended.
    fn is_over<J: PoolJob>(self, left: &Left<J>) -> bool
        ensures { IsTrue result ↔ (self.spawned ≡ self.ended + count_of left.now) }
    {
        match left.taken_from(self.spawned) {
            Some(rest) => rest == self.ended,
            None => false,
        }
    }
}
