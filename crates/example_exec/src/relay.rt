//! A relay: each job waits until the job before it has ended, and then ends itself.
ghost use Rattle.std.specs.Prelude.{◌≡◌, ◌*◌, ◌<◌, IfOk};
ghost use Rattle.example_exec.specs.Relay.{IsFree, HasOne, HasNone};

use arachne_exec::{
    ExecSeat, Executor, HeldJob, JobRested, JobSpawned, JobWoken, Next, WORKERS, place_of,
    worker_of_place,
};
use arachne_team::{Team, TeamFault};
use std::alloc::{AllocError, Global};
use std::sync::Wait;
use std::sync::atomic::{AtomicU64, Ordering};
use std::thread::Parker;
use std::time::Clock;

/// A relay of jobs, numbered from 1. Each job waits for the job before it.
#[derive(Drop)]
pub struct Relay {
    executor: Executor,
    /// The number of kernel threads, each of which runs the jobs of one shard (a part of the executor's slots).
    team: u8,
    /// The name by which the executor knows each job, so that the job can be woken.
    names: Vec<AtomicU64>,
    /// The number of the job that ended last; 0 if none has ended.
    last: AtomicU64,
    parkers: Vec<Parker>,
}

/// Spawns `jobs` jobs in each shard (one kernel thread's part of the executor's slots), and returns their names.
fn spawn_all(
    alloc: Global,
    executor: &Executor,
    seat: &mut ExecSeat,
    jobs: usize,
) -> Result<Vec<AtomicU64>, AllocError>
    requires { IsFree executor.now seat.old }
    ensures { IsFree executor.now seat.new }
{
    let mut names = Vec::new(alloc);
    for turn in 0..jobs {
        for shard in 0..executor.shards().min(WORKERS) {
            let block = 64 * shard + turn / 64 % 64;
            let job = names.len() as u64 + 1;
            let JobSpawned::Placed(placed) = executor.spawn(seat, block, job) else {
                return Err(AllocError);
            };
            names.push(AtomicU64::new(placed.name))?;
        }
    }
    Ok(names)
}

impl Relay {
    /// Creates a relay with `jobs` jobs for each of `team` kernel threads, and the first seat (a kernel thread's right
    /// to call the executor). Returns an error if memory is refused.
    pub fn new(alloc: Global, team: u8, jobs: usize) -> Result<(Relay, ExecSeat), AllocError>
        ensures seat { IfOk result (λ made. IsFree made.0.executor made.1) }
        ensures team { IfOk result (λ made. made.0.team ≡ team) }
    {
        let parkers: Vec<Parker> = (0..team).map(|_| Parker::new()).collect(alloc)?;
        let (executor, mut seat) = Executor::new(alloc, usize::from(team))?;
        let names = spawn_all(alloc, &executor, &mut seat, jobs)?;
        let relay = Relay {
            executor,
            team,
            names,
            last: AtomicU64::new(0),
            parkers,
        };
        Ok((relay, seat))
    }

    /// Returns the number of jobs of the relay that have ended.
    pub fn ended(&self) -> u64 {
        self.last.load(Ordering::SeqCst)
    }

    /// Closes the relay, and returns the number of jobs that have not ended. Returns `None` if another seat (a kernel
    /// thread's right to call the executor) is still in use, or if memory is refused.
    pub fn close(self, alloc: Global, seat: ExecSeat) -> Option<usize>
        requires { IsFree self.executor seat }
    {
        if !self.executor.is_whole(&seat) {
            return None;
        }
        let left = self.executor.close(alloc, seat).ok()?;
        Some(left.len())
    }

    fn unpark(&self, place: usize) {
        if let Some(parker) = self.parkers.get(worker_of_place(place)) {
            parker.unpark();
        }
    }

    /// Wakes the job with the name `names[index]`, if there is one.
    fn wake<R: Wait>(&self, rt: &R, seat: &mut ExecSeat, index: usize)
        requires { HasNone self.now.executor seat.old }
        ensures { HasNone self.now.executor seat.new × (seat.new.known.worker ≡ seat.old.known.worker) }
    {
        let Some(name) = self.names.get(index) else {
            return;
        };
        let name = name.load(Ordering::SeqCst);
        for _ in rt.forever() {
            match self.executor.wake(seat, name) {
                JobWoken::Lost => {}
                JobWoken::Ready { unpark: true } => return self.unpark(place_of(name)),
                _ => return,
            }
        }
    }

    /// Ends `job` and wakes the next job, if the job before `job` has ended. Otherwise blocks `job` until it is woken.
    fn run<R: Wait>(&self, rt: &R, seat: &mut ExecSeat, job: HeldJob)
        requires own { HasOne self.now.executor job seat.old }
        requires place { job.place < 4096 * self.now.executor.shards }
        ensures { HasNone self.now.executor seat.new × (seat.new.known.worker ≡ seat.old.known.worker) }
    {
        if self.last.load(Ordering::SeqCst).checked_add(1) == Some(job.job) {
            self.executor.finish(seat, job.place);
            self.last.store(job.job, Ordering::SeqCst);
            self.wake(rt, seat, job.job as usize);
        } else if let JobRested::Ready { unpark: true } = self
            .executor
            .rest_blocked(seat, job.place)
        {
            self.unpark(job.place);
        }
    }

    /// Unparks all kernel threads, so that each checks whether all jobs have ended.
    fn unpark_all(&self) {
        for parker in &self.parkers {
            parker.unpark();
        }
    }
}

impl Team<ExecSeat> for Relay {
    ghost has = { λ relay seat. IsFree relay.executor seat };

    ghost size = { λ relay. relay.team };

    fn size(&self) -> u8 {
        self.team
    }

    fn part_off<R: Wait>(&self, _rt: &R, mut share: ExecSeat) -> (ExecSeat, Option<ExecSeat>) {
        let other = self.executor.split(&mut share);
        (share, Some(other))
    }

    fn work<R: Wait + Clock>(&self, rt: &R, number: u8, mut share: ExecSeat) -> Option<ExecSeat> {
        let worker = usize::from(number);
        if worker >= WORKERS || !self.executor.register(&mut share, worker) {
            return None;
        }
        for _ in rt.forever() {
            if self.ended() == self.names.len() as u64 {
                break;
            }
            match self.executor.next(&mut share, worker) {
                Next::Run(job) => self.run(rt, &mut share, job),
                Next::Park => {
                    if let Some(parker) = self.parkers.get(worker) {
                        parker.park(rt);
                    }
                }
                Next::Again => {}
            }
        }
        self.unpark_all();
        self.executor.leave(&mut share, worker);
        Some(share)
    }

    fn join<R: Wait>(&self, _rt: &R, mut share: ExecSeat, other: ExecSeat) -> Option<ExecSeat> {
        self.executor.join_seats(&mut share, other);
        Some(share)
    }

    /// Ends the relay early if a kernel thread can't be started, since the others would wait for its jobs forever.
    fn fail<R: Wait>(&self, _rt: &R, _fault: TeamFault) {
        self.last.store(self.names.len() as u64, Ordering::SeqCst);
        self.unpark_all();
    }
}
