//! `Pool::run` runs a job, and all jobs that it forks, with one kernel thread for each core.
ghost use Rattle.std.specs.Prelude.{◌≡◌, ◌≤◌, [], IfErr, IfOk, IfSome};
ghost use Rattle.arachne_core.specs.declared.layout.TheConstants.{CORES};
ghost use Rattle.arachne_pool.specs.Running.{HandsBackRun, fault_of, of_team};
ghost use Rattle.arachne_pool.specs.Workers.{IsWorkerOf};

use crate::closing::Left;
use crate::handle::Handle;
use crate::job::PoolJob;
use crate::pool::Pool;
use crate::spawned::Spawned;
use crate::tally::Tally;
use crate::worker::{PoolFault, Worker};
use arachne_contexts::{Contexts, Seats};
use arachne_core::{CORES, SLOTS};
use arachne_team::{Team, TeamFault, work_together};
use arachne_words::WordContexts;
use std::alloc::Global;
use std::snapshot::Snapshot;
use std::sync::{Mutex, Wait};
use std::thread::{Threads, available_parallelism};
use std::time::Clock;

/// The result of `Pool::run` after the job and all jobs that it has forked have ended.
#[derive(Drop)]
pub struct Finished<O> {
    pub output: O,
    /// The number of jobs that were spawned (with this one), and the number of jobs that have ended.
    pub tally: Tally,
}

impl From<TeamFault> for PoolFault {
    ghost from_gives = { λ fault e. e ≡ of_team fault };

    fn from(fault: TeamFault) -> PoolFault {
        match fault {
            TeamFault::Memory => PoolFault::Memory,
            TeamFault::KernelThread => PoolFault::KernelThread,
        }
    }
}

/// The error of `Pool::run`, with the first fault and the unfinished jobs.
#[derive(Drop)]
pub enum Unfinished<J: PoolJob> {
    /// Memory or a kernel thread was refused before the job was spawned. The variant holds the job.
    NotSpawned(PoolFault, J),
    /// A fault has stopped all kernel threads. The variant holds the counts of jobs, and the jobs that have not ended.
    Stopped(PoolFault, Tally, Left<J>),
    /// A fault has stopped all kernel threads, and the unfinished jobs are dropped. Either memory was refused while the
    /// jobs were collected, or the table rejected a slot or a job that it had given to a worker.
    Lost(PoolFault),
}

impl<J: PoolJob> Unfinished<J> {
    /// Returns the reason why the job was not run to its end.
    pub fn why(&self) -> PoolFault
        ensures { result ≡ fault_of self.now }
    {
        match self {
            Unfinished::NotSpawned(why, _) | Unfinished::Stopped(why, ..) | Unfinished::Lost(why) =>
                *why,
        }
    }
}

impl<J: PoolJob + Send> Pool<WordContexts<Spawned<J>>>
where
    J::Output: Send,
{
    /// Runs a job and all jobs that it forks, on one kernel thread for each processor, including the caller's. Returns
    /// the job's result after all these jobs have ended.
    ///
    /// If memory or a kernel thread is refused before the job is spawned, returns the job. If a worker fails, all
    /// workers stop after their current slices (a few steps), and the call returns the jobs that have not ended.
    pub fn run<R: Threads + Wait + Clock + Sync>(
        rt: &R,
        alloc: Global,
        job: J,
    ) -> Result<Finished<J::Output>, Unfinished<J>>
        requires fresh { J.awaits job [] }
        ensures output { IfOk result (λ done. J.is_result job done.output) }
        ensures all { IfOk result (λ done. done.tally.ended ≡ done.tally.spawned) }
        ensures handed_back { IfErr result (HandsBackRun job) }
    {
        Pool::<WordContexts<Spawned<J>>>::run_on(rt, alloc, processors(rt), job)
    }

    /// Runs a job as `run` does, on `cores` kernel threads.
    pub fn run_on<R: Threads + Wait + Clock + Sync>(
        rt: &R,
        alloc: Global,
        cores: u8,
        job: J,
    ) -> Result<Finished<J::Output>, Unfinished<J>>
        requires some { 1 ≤ cores }
        requires most { cores ≤ CORES }
        requires fresh { J.awaits job [] }
        ensures output { IfOk result (λ done. J.is_result job done.output) }
        ensures all { IfOk result (λ done. done.tally.ended ≡ done.tally.spawned) }
        ensures handed_back { IfErr result (HandsBackRun job) }
    {
        let made = Pool::<WordContexts<Spawned<J>>>::new::<J>(alloc, cores, SLOTS, Vec::new(alloc));
        let Ok((pool, worker)) = made else {
            return Err(Unfinished::NotSpawned(PoolFault::Memory, job));
        };
        // Called so that the workers don't return before the first kernel thread has spawned the job.
        pool.keep_open();
        let as_spawned = Snapshot::of(&job);
        let crew = Crew {
            pool: &pool,
            as_spawned: Snapshot::of(&job),
            first_fault: Mutex::new(None),
        };
        let share = Share {
            worker,
            job: Some(job),
            handle: None,
        };
        let share = work_together(rt, alloc, &crew, share);
        let why = crew.into_first_fault();
        end(rt, alloc, pool, share, why, &as_spawned)
    }
}

/// Returns the number of processors that this process may use, at most 64, or 1 if that isn't known.
fn processors<R: Threads>(rt: &R) -> u8
    ensures { (1 ≤ result) × (result ≤ CORES) }
{
    match available_parallelism(rt) {
        Ok(count) => u8::try_from(count.get()).unwrap_or(CORES).min(CORES),
        Err(_) => 1,
    }
}

/// What all kernel threads of a run share. `as_spawned` is the run's job before its first step, only for contracts.
#[derive(Drop)]
struct Crew<'p, C: Seats, J> {
    pool: &'p Pool<C>,
    as_spawned: Snapshot<J>,
    first_fault: Mutex<Option<PoolFault>>,
}

/// What one kernel thread of a run has. Only the first has the job, and later its handle.
#[derive(Drop)]
struct Share<S, J: PoolJob> {
    worker: Worker<S, J>,
    job: Option<J>,
    handle: Option<Handle<J>>,
}

impl<'p, C: Seats, J: PoolJob> Crew<'p, C, J> {
    /// Stops all kernel threads, and records the fault if it is the first.
    fn stop_for<R: Wait>(&self, rt: &R, fault: PoolFault) {
        let mut first = self.first_fault.lock(rt);
        if first.is_none() {
            *first = Some(fault);
        }
        self.pool.stop();
    }

    /// Returns the first fault, or `Stopped` if there was none.
    fn into_first_fault(self) -> PoolFault {
        let Crew { first_fault, .. } = self;
        first_fault.into_inner().unwrap_or(PoolFault::Stopped)
    }

    /// Returns the handle of `job`, or `job` if it can't be spawned. Only the first worker has a job. The pool is
    /// already stopped if a kernel thread was refused. After the spawn it needn't be kept open any more.
    fn spawn<R: Wait>(
        &self,
        rt: &R,
        worker: &mut Worker<C::Seat, J>,
        job: Option<J>,
    ) -> (Option<J>, Option<Handle<J>>)
    where
        C: Contexts<Spawned<J>>,
        requires worker { IsWorkerOf self.now.pool.now worker.old }
        requires fresh { J.awaits self.now.as_spawned.value [] }
        requires job { IfSome job (λ job. job ≡ self.now.as_spawned.value) }
        ensures worker { IsWorkerOf self.now.pool.now worker.new }
        ensures job { IfSome result.0 (λ job. job ≡ self.now.as_spawned.value) }
        ensures handle { IfSome result.1 (λ handle. handle ≡ self.now.as_spawned.value) }
    {
        let Some(job) = job else { return (None, None) };
        if self.pool.is_stopped() {
            return (Some(job), None);
        }
        let spawned = self.pool.spawn(rt, worker, job);
        self.pool.finish();
        match spawned {
            Ok(handle) => (None, Some(handle)),
            Err(refused) => {
                self.stop_for(rt, PoolFault::Memory);
                (Some(refused.job), None)
            }
        }
    }
}

impl<'p, J: PoolJob, C: Contexts<Spawned<J>>> Team<Share<C::Seat, J>> for Crew<'p, C, J> {
    ghost has = { λ crew share. IsWorkerOf crew.pool.now share.worker
        × IfSome share.job (λ job. job ≡ crew.as_spawned.value) × IfSome share.handle (λ handle. handle ≡ crew.as_spawned.value) × J.awaits crew.as_spawned.value [] };

    ghost size = { λ crew. crew.pool.now.cores };

    fn size(&self) -> u8 {
        self.pool.cores
    }

    fn part_off<R: Wait>(
        &self,
        rt: &R,
        share: Share<C::Seat, J>,
    ) -> (Share<C::Seat, J>, Option<Share<C::Seat, J>>) {
        let (worker, theirs) = self.pool.split(rt, share.worker);
        let theirs = Share {
            worker: theirs,
            job: None,
            handle: None,
        };
        (Share { worker, ..share }, Some(theirs))
    }

    /// Returns the share also after a fault, since `end` then hands back the jobs that are left.
    fn work<R: Wait + Clock>(
        &self,
        rt: &R,
        number: u8,
        share: Share<C::Seat, J>,
    ) -> Option<Share<C::Seat, J>> {
        let mut worker = share.worker;
        let (job, handle) = self.spawn(rt, &mut worker, share.job);
        if let Err(fault) = self.pool.work(rt, &mut worker, number) {
            self.stop_for(rt, fault);
        }
        Some(Share {
            worker,
            job,
            handle,
        })
    }

    /// Returns `None` if memory for the waiting jobs is refused. Then `end` has no jobs to hand back.
    fn join<R: Wait>(
        &self,
        rt: &R,
        share: Share<C::Seat, J>,
        other: Share<C::Seat, J>,
    ) -> Option<Share<C::Seat, J>> {
        let worker = self.pool.join_workers(rt, share.worker, other.worker).ok()?;
        Some(Share { worker, ..share })
    }

    fn fail<R: Wait>(&self, rt: &R, fault: TeamFault) {
        self.stop_for(rt, PoolFault::from(fault));
    }
}

/// Closes the pool, and returns the job's output, or the reason why there is none, with the job if it was not spawned,
/// or else the jobs that are left. The reason is `Stopped` if no fault was recorded.
fn end<C: Contexts<Spawned<J>> + Drop, R: Wait, J: PoolJob>(
    rt: &R,
    alloc: Global,
    pool: Pool<C>,
    share: Option<Share<C::Seat, J>>,
    why: PoolFault,
    as_spawned: &Snapshot<J>,
) -> Result<Finished<J::Output>, Unfinished<J>>
    requires worker { IfSome share (λ share. IsWorkerOf pool share.worker) }
    requires job { IfSome share (λ share. IfSome share.job (λ job. job ≡ as_spawned.now.value)) }
    requires handle { IfSome share (λ share. IfSome share.handle (λ handle. handle ≡ as_spawned.now.value)) }
    ensures output { IfOk result (λ done. J.is_result as_spawned.now.value done.output) }
    ensures all { IfOk result (λ done. done.tally.ended ≡ done.tally.spawned) }
    ensures handed_back { IfErr result (HandsBackRun as_spawned.now.value) }
{
    let Share {
        worker,
        job,
        handle,
    } = share.ok_or(Unfinished::<J>::Lost(why))?;
    if let Some(job) = job {
        return Err(Unfinished::NotSpawned(why, job));
    }
    let handle = handle.ok_or(Unfinished::<J>::Lost(why))?;
    let tally = worker.tally();
    let Ok(left) = pool.close(rt, alloc, worker) else {
        return Err(Unfinished::Lost(why));
    };
    match handle.poll() {
        Ok(output) if left.is_empty() => Ok(Finished { output, tally }),
        _ => Err(Unfinished::Stopped(why, tally, left)),
    }
}
