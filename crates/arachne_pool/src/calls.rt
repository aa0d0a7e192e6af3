//! The calls by which a worker runs the jobs of its core and wakes sleeping jobs.
ghost use Rattle.std.specs.Prelude.{◌≡◌, ◌<◌, ◌↔◌, IfSome, IsNone, IsSome, IsTrue, MatchOption, None, max};
ghost use Rattle.arachne_pool.specs.Calls.{HasSeatAfter};
ghost use Rattle.arachne_pool.specs.Grounds.{ground_at};
ghost use Rattle.arachne_pool.specs.Waking.{HasWoken};
ghost use Rattle.arachne_pool.specs.Workers.{IsIdleAt, IsWorkerOf, WorksFor};
ghost use Rattle.arachne_workers.specs.RunQueues.{LooksWithin};

use crate::job::PoolJob;
use crate::pool::Pool;
use crate::seat::Seat;
use crate::spawned::Spawned;
use crate::worker::{PoolFault, Worker};
use arachne_contexts::{Contexts, Seats, Woken};
use arachne_core::{MarkWord, Rest, ThreadId};
use arachne_workers::{CoreWorker, Dispatch, WorkerEvent};
use std::mem::replace;
use std::sync::Wait;
use std::sync::atomic::Ordering;
use std::time::Clock;

impl<C: Seats> Pool<C> {
    /// Makes one pass of the worker's loop on `core`. Returns true if there was anything to do.
    ///
    /// The pass carries out due orders, which close or open cores. It runs each ready job of `core` for a slice (at
    /// most `PoolJob::bound` steps), and moves a job from the worker's queue of jobs without a slot into a free slot.
    /// If no job of `core` is ready, the pass moves a ready job here from a core whose worker has not reached it yet,
    /// and runs that job.
    pub fn turn<'a, H: Wait + Clock, J: PoolJob>(
        &'a self,
        rt: &'a H,
        worker: &mut Worker<C::Seat, J>,
        core: u8,
    ) -> Result<bool, PoolFault>
    where
        C: Contexts<Spawned<J>>,
        requires worker { IsWorkerOf self.now worker.old }
        requires core { core < self.now.cores }
        ensures worker { IsWorkerOf self.now worker.new }
        ensures seat { HasSeatAfter worker.new.seat result }
        ensures same { WorksFor core worker.new }
        ensures heeds { LooksWithin (max 1 J.most_steps) worker.old.queue worker.new.queue }
    {
        let mut entered = self.enter(rt, worker, core, false);
        let Some(core_worker) = &mut entered else {
            return Err(PoolFault::Token);
        };
        let found = run_once(core_worker);
        let has_seat = self.leave(worker, core, &mut entered);
        let lacks_memory = replace(&mut worker.state.lacks_memory, false);
        // Even if the round failed: a job may have ended in the round.
        if replace(&mut worker.state.has_ended, false) {
            self.wake_if_over();
        }
        if !has_seat {
            return Err(PoolFault::Token);
        }
        if lacks_memory {
            return Err(PoolFault::Memory);
        }
        found
    }

    /// Runs the jobs of a core until the pool is stopped, or until all jobs have ended and the pool is not kept open
    /// (`keep_open`). If this call fails, it stops all other workers too.
    ///
    /// The worker checks for a stop, and for due orders to close or open cores. Between two such checks its jobs make
    /// at most `PoolJob::most_steps` steps.
    pub fn work<'a, H: Wait + Clock, J: PoolJob>(
        &'a self,
        rt: &'a H,
        worker: &mut Worker<C::Seat, J>,
        core: u8,
    ) -> Result<(), PoolFault>
    where
        C: Contexts<Spawned<J>>,
        requires worker { IsWorkerOf self.now worker.old }
        requires core { core < self.now.cores }
        ensures worker { IsWorkerOf self.now worker.new }
        ensures seat { HasSeatAfter worker.new.seat result }
        ensures same { WorksFor core worker.new }
        ensures heeds { LooksWithin (max 1 J.most_steps) worker.old.queue worker.new.queue }
    {
        self.worked.fetch_or(1 << u32::from(core), Ordering::SeqCst);
        let mut entered = self.enter(rt, worker, core, true);
        let Some(core_worker) = &mut entered else {
            self.stop();
            return Err(PoolFault::Token);
        };
        let ended = run(core_worker);
        if !self.leave(worker, core, &mut entered) {
            self.stop();
            return Err(PoolFault::Token);
        }
        match ended {
            Ok(()) => self.wake_if_over(),
            Err(_) => self.stop(),
        }
        ended
    }

    /// Wakes the job with this id. Returns `None` if the worker has lost the right to use the table. A kernel thread
    /// that runs no jobs, such as a timer, can get a worker for its wakes from `split`.
    ///
    /// `Woken` means that the job was blocked, or that a worker is running the job and will put it back as ready.
    /// `Already` means that the job was woken before, or goes on without a wake. `Gone` means that the job has ended.
    /// Jobs that run inside one slot share an id; apart from that, no id is used twice.
    pub fn wake<H: Wait, J: PoolJob>(
        &self,
        rt: &H,
        worker: &mut Worker<C::Seat, J>,
        id: ThreadId,
    ) -> Option<Woken>
    where
        C: Contexts<Spawned<J>>,
        requires { IsWorkerOf self.now worker.old }
        ensures worker { IsWorkerOf self.now worker.new }
        ensures answer { MatchOption result (worker.old.seat ≡ None) (HasWoken id) }
        ensures seat { IsSome worker.old.seat → IsSome worker.new.seat }
        ensures kept { worker.new ≡ record worker.old { seat = worker.new.seat } }
    {
        let Some(seat) = &mut worker.seat else {
            return None;
        };
        for _ in rt.forever() {
            match self.table.wake(rt, seat, id) {
                Woken::Woken => {
                    if id.context < u32::from(self.cores) * u32::from(self.slots) {
                        let word = self.table.look_mark(rt, seat, id.context);
                        if let Some(mark) = MarkWord::from_word(word) {
                            // If the job is moved before this signal, the arbiter signals its new core's worker.
                            self.shared.hint(mark.place());
                        }
                    }
                    return Some(Woken::Woken);
                }
                Woken::Already(word) => return Some(Woken::Already(word)),
                Woken::Gone => return Some(Woken::Gone),
                // Another kernel thread was faster.
                Woken::Lost(_) => {}
            }
        }
        unreachable!()
    }

    /// Moves the worker's data into a `CoreWorker`, which runs the loop for `core`. Until `leave` moves it back,
    /// `worker` is an empty stub.
    ///
    /// `works` is true in `Pool::work`. `helps` is false, since jobs have no locks. Returns `None` if the worker has
    /// lost the right to use the table.
    fn enter<'a, H: Wait + Clock, J: PoolJob>(
        &'a self,
        rt: &'a H,
        worker: &mut Worker<C::Seat, J>,
        core: u8,
        works: bool,
    ) -> Option<CoreWorker<'a, H, Seat<'a, H, J, C>>>
    where
        C: Contexts<Spawned<J>>,
        requires worker { IsWorkerOf self.now worker.old }
        requires core { core < self.now.cores }
        ensures core_worker { IfSome result (λ k. (k.dispatch ≡ ground_at self.now.table self.now.cores) × (k.queue ≡ worker.old.queue)) }
        ensures worker { IsNone result → IsWorkerOf self.now worker.new }
        ensures same { IsNone result → WorksFor core worker.new × (worker.new.queue ≡ worker.old.queue) }
    {
        let before = replace(&mut worker.core, core);
        if before != core && before < self.cores {
            // The hints about ready jobs that this worker has taken on the core `before` are lost, so the next worker
            // there must visit every slot.
            self.shared.hint_cores(1 << u32::from(before));
        }
        let seat = worker.seat.take()?;
        let empty = Worker::new(worker.state.alloc, None, 0);
        let Worker {
            state,
            queue,
            backoff,
            ..
        } = replace(worker, empty);
        Some(CoreWorker {
            rt,
            shared: &self.shared,
            core,
            slots: self.slots,
            helps: false,
            queue,
            slices: 0,
            backoff,
            dispatch: Seat {
                rt,
                pool: self,
                core,
                works,
                is_broken: false,
                seat,
                held: None,
                rests_as: Rest::Ready,
                has_taken: false,
                state,
            },
        })
    }

    /// Moves the loop's data back into `worker`. If the table has rejected a slot or a job, or a job was not put back,
    /// returns false, and `worker` loses the right to use the table.
    ///
    /// `entered` is borrowed, since the prover can't check a call that takes it by value.
    fn leave<'a, H: Wait + Clock, J: PoolJob>(
        &'a self,
        worker: &mut Worker<C::Seat, J>,
        core: u8,
        entered: &mut Option<CoreWorker<'a, H, Seat<'a, H, J, C>>>,
    ) -> bool
    where
        C: Contexts<Spawned<J>>,
        requires some { IsSome entered.old }
        requires dispatch { IfSome entered.old (λ k. k.dispatch ≡ ground_at self.now.table self.now.cores) }
        requires core { core < self.now.cores }
        ensures worker { IsWorkerOf self.now worker.new }
        ensures same { WorksFor core worker.new }
        ensures queue { IfSome entered.old (λ k. worker.new.queue ≡ k.queue) }
        ensures seat { IsTrue result ↔ IsSome worker.new.seat }
    {
        let Some(core_worker) = entered.take() else {
            unreachable!()
        };
        let CoreWorker {
            queue,
            backoff,
            dispatch,
            ..
        } = core_worker;
        let Seat {
            is_broken,
            seat,
            held,
            state,
            ..
        } = dispatch;
        *worker = Worker {
            seat: None,
            state,
            core,
            queue,
            backoff,
        };
        if is_broken || held.is_some() {
            return false;
        }
        worker.seat = Some(seat);
        true
    }
}

/// Makes a pass of the worker's loop, and a second one if the first found something to do but ran no job. Carries out
/// due orders first, since a pass does so only before a slice. The 0 makes a pass that finds no ready job visit all
/// occupied slots.
fn run_once<H: Wait + Clock, D: Dispatch>(
    core_worker: &mut CoreWorker<'_, H, D>,
) -> Result<bool, PoolFault>
    ensures dispatch { core_worker.new.dispatch ≡ core_worker.old.dispatch }
    ensures heeds { LooksWithin (D.largest_quantum core_worker.old.dispatch) core_worker.old.queue core_worker.new.queue }
{
    core_worker.tend();
    let mut found = core_worker.round(0);
    // The job that was moved to this core or got a place has had no slice yet.
    if core_worker.slices == 0
        && let Ok(true) = found
        && let Err(halt) = core_worker.round(0)
    {
        found = Err(halt);
    }
    Ok(found?)
}

/// Makes passes of the worker's loop until the pool is stopped or over. `is_over` is slow, since it reads the counts of
/// all cores. So it is called only at first, and after a pass without a slice: after the last job's end none has one.
fn run<'a, H: Wait + Clock, J: PoolJob, C: Contexts<Spawned<J>>>(
    core_worker: &mut CoreWorker<'a, H, Seat<'a, H, J, C>>,
) -> Result<(), PoolFault>
    ensures dispatch { core_worker.new.dispatch ≡ core_worker.old.dispatch }
    ensures heeds { LooksWithin (max 1 J.most_steps) core_worker.old.queue core_worker.new.queue }
{
    let pool = core_worker.dispatch.pool;
    // The number of consecutive rounds that have found nothing.
    let mut idle: u32 = 0;
    let mut may_be_over = true;
    for _ in core_worker.rt.forever() {
        if core_worker.shared.is_stopped() || may_be_over && pool.is_over() {
            if idle > 0 && core_worker.shared.hints().is_asleep(core_worker.core) {
                // The worker's sleep timed out: nobody has woken the worker at the end.
                core_worker.dispatch.told(WorkerEvent::Overslept);
            }
            return Ok(());
        }
        let slices = core_worker.slices;
        let found = core_worker.round(idle)?;
        if replace(&mut core_worker.dispatch.state.lacks_memory, false) {
            return Err(PoolFault::Memory);
        }
        // A round without a slice may have parked, and the worker may have been unparked because all jobs have ended.
        may_be_over = core_worker.slices == slices;
        if found {
            idle = 0;
        } else {
            core_worker.rest_for(idle);
            idle = idle.saturating_add(1);
        }
    }
    unreachable!()
}
