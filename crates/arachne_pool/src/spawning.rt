//! Spawning jobs. A job for which no slot is free waits in the worker's queue, or is returned to the caller.
ghost use Rattle.std.specs.Prelude.{◌≡◌, [], ◌∷◌, ◌++◌, IfErr, IfOk, None, OnOk, Some};
ghost use Rattle.arachne_contexts.specs.Out.{Claim};
ghost use Rattle.arachne_pool.specs.Jobs.{one};
ghost use Rattle.arachne_pool.specs.Spawning.{HandsBack, IsRefusedUnkept, KeepsLast, SpawnsOne};
ghost use Rattle.arachne_pool.specs.Workers.{HasNoCore, IsWorkerOf};
ghost use Rattle.arachne_pool.specs.declared.spawning.Refusal.TheVariants.{Memory};

use crate::handle::Handle;
use crate::job::PoolJob;
use crate::place::{claim, post};
use crate::pool::Pool;
use crate::spawned::Spawned;
use crate::worker::Worker;
use arachne_contexts::{Contexts, Seats};
use std::sync::Wait;
use thiserror::Error;

/// The reason why a pool refuses to spawn a job.
#[derive(Clone, Copy, Debug, PartialEq, Eq, Error)]
pub enum Refusal {
    #[error("no core has a place")]
    NoPlace,
    #[error("out of memory")]
    Memory,
    /// The worker has lost the right to use the table, since the table had rejected one of its slots or jobs.
    #[error("the worker has no seat")]
    NoSeat,
}

/// A job that could not be spawned, with the reason.
#[derive(Drop)]
pub struct Refused<J: PoolJob> {
    pub job: J,
    pub why: Refusal,
}

impl<C: Seats> Pool<C> {
    /// Spawns a job and returns its handle. The job gets a free slot, or else waits in the worker's queue.
    ///
    /// Returns the job if memory is refused, or if the worker has lost the right to use the table. Also returns the job
    /// if no slot is free and the worker has not worked for a core yet, since such a worker might never run its queue.
    pub fn spawn<H: Wait, J: PoolJob>(
        &self,
        rt: &H,
        worker: &mut Worker<C::Seat, J>,
        job: J,
    ) -> Result<Handle<J>, Refused<J>>
    where
        C: Contexts<Spawned<J>>,
        requires worker { IsWorkerOf self.now worker.old }
        requires fresh { J.awaits job [] }
        ensures worker { IsWorkerOf self.now worker.new }
        ensures begun { IfOk result (λ handle. (handle ≡ job) × SpawnsOne worker.old worker.new) }
        ensures handed_back { IfErr result (λ back. HandsBack job worker.old worker.new back.job back.why) }
        ensures unkept { IfErr result (λ back. IsRefusedUnkept self.now.cores worker.old back.why) }
        ensures near { HasNoCore self.now.cores worker.old → worker.new.waiting ≡ worker.old.waiting }
        ensures waiting { KeepsLast (one (J.tag_of job) job None) worker.old.waiting worker.new.waiting }
        ensures kept { worker.new ≡ record worker.old { seat = worker.new.seat; waiting = worker.new.waiting; tally = worker.new.tally; told = worker.new.told } }
    {
        let Refused { job, why } = match self.try_spawn(rt, worker, job) {
            Ok(handle) => return Ok(handle),
            Err(refused) => refused,
        };
        if worker.core >= self.cores {
            return Err(Refused { job, why });
        }
        match why {
            Refusal::NoPlace => self.keep(worker, job),
            Refusal::Memory | Refusal::NoSeat => Err(Refused { job, why }),
        }
    }

    /// Spawns a job as `spawn` does, but returns the job, and changes nothing, if no slot is free.
    pub fn try_spawn<H: Wait, J: PoolJob>(
        &self,
        rt: &H,
        worker: &mut Worker<C::Seat, J>,
        job: J,
    ) -> Result<Handle<J>, Refused<J>>
    where
        C: Contexts<Spawned<J>>,
        requires worker { IsWorkerOf self.now worker.old }
        requires fresh { J.awaits job [] }
        ensures worker { IsWorkerOf self.now worker.new }
        ensures kept { worker.new ≡ record worker.old { seat = worker.new.seat; tally = worker.new.tally; told = worker.new.told } }
        ensures begun { IfOk result (λ handle. (handle ≡ job) × SpawnsOne worker.old worker.new) }
        ensures handed_back { IfErr result (λ back. HandsBack job worker.old worker.new back.job back.why) }
    {
        let Some(mut seat) = worker.seat.take() else {
            let why = Refusal::NoSeat;
            return Err(Refused { job, why });
        };
        let chooser = &mut worker.state.chooser;
        match claim::<H, J, C>(rt, self, &mut seat, chooser, job.is_exclusive()) {
            Ok(Some(claim)) => self.begin_at(rt, worker, seat, claim, job),
            Ok(None) => Err(worker.refuse(seat, job, Refusal::NoPlace)),
            Err(_) => Err(worker.refuse(seat, job, Refusal::Memory)),
        }
    }

    /// Spawns a job into the worker's queue `near`, or returns the job if memory is refused.
    fn keep<J: PoolJob>(
        &self,
        worker: &mut Worker<C::Seat, J>,
        job: J,
    ) -> Result<Handle<J>, Refused<J>>
        requires fresh { J.awaits job [] }
        ensures kept { worker.new ≡ record worker.old { waiting = worker.new.waiting; tally = worker.new.tally; told = worker.new.told } }
        ensures begun { IfOk result (λ handle. (handle ≡ job) × SpawnsOne worker.old worker.new) }
        ensures last { OnOk result (worker.new.waiting ≡ worker.old.waiting ++ one (J.tag_of job) job None ∷ []) }
        ensures handed_back { IfErr result (λ back. (back.job ≡ job) × (back.why ≡ Memory) × (worker.new ≡ worker.old)) }
    {
        match worker.state.begin(job) {
            Ok((handle, job)) => {
                self.live.add(worker.core, worker.state.take_unreported());
                worker.state.near.push_back_reserved(job);
                Ok(handle)
            }
            Err(job) => {
                let why = Refusal::Memory;
                Err(Refused { job, why })
            }
        }
    }

    /// Spawns a job into a claimed slot, or frees the slot and returns the job if memory is refused. If the table
    /// rejects the slot, the worker loses its seat, and a job that was counted already is lost.
    fn begin_at<H: Wait, J: PoolJob>(
        &self,
        rt: &H,
        worker: &mut Worker<C::Seat, J>,
        seat: C::Seat,
        claim: C::Claim,
        job: J,
    ) -> Result<Handle<J>, Refused<J>>
    where
        C: Contexts<Spawned<J>>,
        requires worker { IsWorkerOf self.now worker.old }
        requires taken { worker.old.seat ≡ None }
        requires seat { C.sits self.now.table seat × C.has self.now.table seat (Claim claim ∷ []) }
        requires fresh { J.awaits job [] }
        ensures worker { IsWorkerOf self.now worker.new }
        ensures kept { worker.new ≡ record worker.old { seat = worker.new.seat; tally = worker.new.tally; told = worker.new.told } }
        ensures begun { IfOk result (λ handle. (handle ≡ job) × SpawnsOne worker.old worker.new) }
        ensures handed_back { IfErr result (λ back. (back.why ≡ Memory) × HandsBack job worker.old worker.new back.job back.why) }
    {
        let mut seat = seat;
        match worker.state.begin(job) {
            Ok((handle, job)) => {
                // Before the job is posted: its end must not be counted before its spawn.
                self.live.add(worker.core, worker.state.take_unreported());
                match post::<H, J, C>(rt, self, &mut seat, claim, job) {
                    Ok(posted) => {
                        // Also the worker's own core: it may make no round.
                        posted.tell_unless_on(u8::MAX, &self.shared);
                        worker.seat = Some(seat);
                        Ok(handle)
                    }
                    Err(_) => Ok(handle),
                }
            }
            Err(job) => {
                let why = Refusal::Memory;
                match self.table.give_back(rt, &mut seat, claim) {
                    Ok(()) => Err(worker.refuse(seat, job, why)),
                    Err(_) => Err(Refused { job, why }),
                }
            }
        }
    }
}

impl<S: Drop, J: PoolJob> Worker<S, J> {
    /// Gives the seat (the right to use the table) back to the worker, and returns the job with the reason.
    fn refuse(&mut self, seat: S, job: J, why: Refusal) -> Refused<J>
        ensures seat { self.new ≡ record self.old { seat = Some seat } }
        ensures back { result ≡ record { job = job; why = why } }
    {
        self.seat = Some(seat);
        Refused { job, why }
    }
}
