//! The part of a test case that each of its two kernel threads does: it works, makes single rounds (passes of its
//! loop), or waits for the other.
ghost use Rattle.std.specs.Prelude.{◌≡◌, ◌<◌, IfSome};
ghost use Rattle.arachne_pool.specs.Workers.{IsWorkerOf};

use crate::rounds::Bench;
use crate::tasks::Task;
use arachne_contexts::Contexts;
use arachne_core::OccWord;
use arachne_pool::{PoolFault, Spawned, Worker};
use arachne_shortage::Hoard;
use std::sync::Wait;
use std::sync::atomic::Ordering;
use std::thread::{sleep, yield_now};
use std::time::{Clock, Duration};

const LOOKS: u32 = 1_000;

/// The number of checks, one every 5 ms, for an event that happens within seconds or never.
const GLANCES: u32 = 2000;

/// The part of a test case that one of its two kernel threads does.
#[derive(Clone, Copy)]
pub(crate) enum Spell {
    Not,
    ToTheEnd,
    /// Works on the core with this number, instead of the kernel thread's own.
    ToTheEndOn(u8),
    /// Works until no job is left each time that the other kernel thread passes the turn, until the pool is stopped.
    ToTheStop,
    /// Makes this number of rounds (passes of the worker's loop), or fewer if no job is left, and stops the pool.
    Rounds(u32),
    /// Makes rounds (passes of the worker's loop) on the core with this number until the kernel thread's own core is
    /// open, and stops the pool.
    TurnsUntilOpen(u8),
    /// Waits until a job has begun, takes all memory of the process, and works.
    ///
    /// `work` must return the fault that memory is refused, and the pool must be stopped.
    InNeed,
    /// This number of times, waits until the kernel thread of core 1 sleeps, and spawns a job of one step, which must
    /// wake it. Then works until no job is left.
    Feeds(u32),
    /// `(n)`: in a pool without jobs, n times, lets the kernel thread of core 1 fall asleep, and calls `finish`, which
    /// must wake it.
    Finishes(u32),
    /// `(n, both)`: n times, waits until a job is about to sleep, counts an answer (the event for which it sleeps) and
    /// wakes the job. If `both` is true, waits before each answer until the kernel thread of core 1 sleeps too.
    Wakes(u32, bool),
    /// `(n, sort, works)`: n times, spawns a job of this sort, waits until it has ended, and polls its handle.
    ///
    /// If `works` is true, this kernel thread helps to run the job. The test case can check how many polls have
    /// returned a result.
    Polls(u32, &'static str, bool),
    /// Runs a job that has core 0 for itself to its end, and then makes rounds (passes of the worker's loop) on core 0
    /// until a job that waits on core 1 has begun.
    ///
    /// A round that finds something to do, but doesn't begin that job, fails the test case.
    Fetches,
    /// Makes rounds (passes of the worker's loop) on its core until only one job, which sleeps, has not ended, and
    /// wakes that job.
    WakesLast,
}

/// A state for which a kernel thread waits: a count above the number given or, for `Live`, a count that isn't above it.
#[derive(Clone, Copy)]
enum Sign {
    Begun(u64),
    Sleeps(u64),
    Turns(u64),
    Returns(u64),
    Live(u64),
    Asleep,
}

impl<'p, C: Contexts<Spawned<Task>>, R: Wait + Clock> Bench<'p, C, R> {
    /// Does one kernel thread's part of a test case, or stops the pool if it has no such core.
    pub(crate) fn work(&self, worker: &mut Worker<C::Seat, Task>, core: u8, spell: Spell)
        requires { IsWorkerOf self.now.pool.now worker.old }
        ensures { IsWorkerOf self.now.pool.now worker.new }
    {
        match spell {
            Spell::Not => {}
            Spell::ToTheEnd if core < self.pool.cores => {
                let _ = self.pool.work(self.rt, worker, core);
            }
            Spell::ToTheEndOn(other) if other < self.pool.cores => {
                let _ = self.pool.work(self.rt, worker, other);
            }
            Spell::ToTheStop if core < self.pool.cores => {
                self.to_the_stop(worker, core);
            }
            Spell::Rounds(rounds) if core < self.pool.cores => {
                self.rounds(worker, core, rounds, 0);
            }
            Spell::TurnsUntilOpen(other) if other < self.pool.cores && core < self.pool.cores => {
                self.turns_until_open(worker, other, core);
            }
            Spell::InNeed if core < self.pool.cores => self.in_need(worker, core),
            Spell::Feeds(jobs) if self.pool.cores > 1 => self.feeds(worker, jobs),
            Spell::Finishes(times) if self.pool.cores > 1 => self.finishes(times),
            Spell::Wakes(times, sleeps) => self.wakes(worker, times, sleeps),
            Spell::Polls(times, sort, works) if self.pool.cores > 1 => {
                self.polls(worker, times, sort, works);
            }
            Spell::Fetches if self.pool.cores > 1 => self.fetches(worker),
            Spell::WakesLast if core < self.pool.cores => {
                self.rounds(worker, core, u32::MAX, 1);
                self.wakes(worker, 1, false);
            }
            _ => self.pool.stop(),
        }
    }

    fn to_the_stop(&self, worker: &mut Worker<C::Seat, Task>, core: u8)
        requires worker { IsWorkerOf self.now.pool.now worker.old }
        requires core { core < self.now.pool.now.cores }
        ensures worker { IsWorkerOf self.now.pool.now worker.new }
    {
        let mut turns: u64 = 0;
        for _ in self.rt.forever() {
            self.await_sign(Sign::Turns(turns));
            if self.pool.is_stopped() {
                return;
            }
            turns = self.board.turns.load(Ordering::SeqCst);
            let _ = self.pool.work(self.rt, worker, core);
            self.board.comes_back();
        }
    }

    /// Stops the pool after `rounds` rounds, or earlier if at most `least` jobs have not ended.
    fn rounds(&self, worker: &mut Worker<C::Seat, Task>, core: u8, rounds: u32, least: u64)
        requires worker { IsWorkerOf self.now.pool.now worker.old }
        requires core { core < self.now.pool.now.cores }
        ensures worker { IsWorkerOf self.now.pool.now worker.new }
    {
        for _ in 0..rounds {
            if self.pool.live() <= least || self.pool.is_stopped() {
                return;
            }
            let _ = self.pool.turn(self.rt, worker, core);
        }
        self.pool.stop();
    }

    fn turns_until_open(&self, worker: &mut Worker<C::Seat, Task>, core: u8, own: u8)
        requires worker { IsWorkerOf self.now.pool.now worker.old }
        requires core { core < self.now.pool.now.cores }
        requires own { own < self.now.pool.now.cores }
        ensures worker { IsWorkerOf self.now.pool.now worker.new }
    {
        for _ in 0..GLANCES {
            let _ = self.pool.turn(self.rt, worker, core);
            if let Some(now) = OccWord::from_word(self.pool.table.glance(self.rt, own))
                && !now.is_closed()
            {
                break;
            }
            sleep(self.rt, Duration::from_millis(5));
        }
        self.pool.stop();
    }

    fn in_need(&self, worker: &mut Worker<C::Seat, Task>, core: u8)
        requires worker { IsWorkerOf self.now.pool.now worker.old }
        requires core { core < self.now.pool.now.cores }
        ensures worker { IsWorkerOf self.now.pool.now worker.new }
    {
        self.await_sign(Sign::Begun(0));
        let hoard = Hoard::take(self.board.alloc);
        let worked = self.pool.work(self.rt, worker, core);
        if hoard.is_err() || worked != Err(PoolFault::Memory) || !self.pool.is_stopped() {
            self.board.answer();
            self.pool.stop();
        }
    }

    /// Calls `spawn` and `try_spawn` alternately.
    fn feeds(&self, worker: &mut Worker<C::Seat, Task>, jobs: u32)
        requires worker { IsWorkerOf self.now.pool.now worker.old }
        requires core { 1 < self.now.pool.now.cores }
        ensures worker { IsWorkerOf self.now.pool.now worker.new }
    {
        for job in 0..jobs {
            self.await_sign(Sign::Asleep);
            let is_begun = match job % 2 {
                0 => self.spawns(worker, 1, "leaf"),
                _ => self.tries(worker, None, "leaf"),
            };
            if !is_begun {
                self.pool.stop();
            }
            self.await_sign(Sign::Live(1));
        }
        self.pool.finish();
        let _ = self.pool.work(self.rt, worker, 0);
    }

    fn finishes(&self, times: u32) {
        for time in 0..times {
            self.pool.keep_open();
            self.board.pass_turn();
            self.await_sign(Sign::Asleep);
            self.pool.finish();
            self.await_sign(Sign::Returns(u64::from(time)));
        }
        self.pool.stop();
        self.board.pass_turn();
    }

    fn wakes(&self, worker: &mut Worker<C::Seat, Task>, times: u32, sleeps: bool)
        requires { IsWorkerOf self.now.pool.now worker.old }
        ensures { IsWorkerOf self.now.pool.now worker.new }
    {
        for time in 0..times {
            self.await_sign(Sign::Sleeps(u64::from(time)));
            if sleeps {
                self.await_sign(Sign::Asleep);
            }
            self.board.answer();
            let _ = self.pool.wake(self.rt, worker, self.board.id());
        }
    }

    fn polls(&self, worker: &mut Worker<C::Seat, Task>, times: u32, sort: &str, works: bool)
        requires worker { IsWorkerOf self.now.pool.now worker.old }
        requires core { 1 < self.now.pool.now.cores }
        ensures worker { IsWorkerOf self.now.pool.now worker.new }
    {
        for time in 0..times {
            let Some(task) = Task::of(sort, self.board) else {
                break;
            };
            let Ok(handle) = self.pool.try_spawn(self.rt, worker, task) else {
                break;
            };
            self.board.pass_turn();
            self.await_sign(Sign::Begun(u64::from(time)));
            if works {
                let _ = self.pool.work(self.rt, worker, 0);
            } else {
                self.await_sign(Sign::Live(0));
            }
            if handle.poll().is_ok() {
                self.board.answer();
            }
        }
        self.pool.stop();
        self.board.pass_turn();
    }

    fn fetches(&self, worker: &mut Worker<C::Seat, Task>)
        requires worker { IsWorkerOf self.now.pool.now worker.old }
        requires core { 1 < self.now.pool.now.cores }
        ensures worker { IsWorkerOf self.now.pool.now worker.new }
    {
        self.await_sign(Sign::Begun(0));
        let _ = self.spawns(worker, 1, "leaf");
        let _ = self.pool.turn(self.rt, worker, 0);
        for _ in self.rt.forever() {
            if self.shows(Sign::Begun(2)) || self.board.answers() > 0 {
                break;
            }
            if self.turns(worker, 0, 1) && !self.shows(Sign::Begun(2)) {
                self.board.answer();
            }
        }
        self.board.answer();
        let _ = self.pool.work(self.rt, worker, 0);
    }

    fn shows(&self, sign: Sign) -> bool {
        match sign {
            Sign::Begun(than) => self.board.begun.load(Ordering::SeqCst) > than,
            Sign::Sleeps(than) => self.board.sleeps.load(Ordering::SeqCst) > than,
            Sign::Turns(than) => self.board.turns.load(Ordering::SeqCst) > than,
            Sign::Returns(than) => self.board.returns.load(Ordering::SeqCst) > than,
            Sign::Live(most) => self.pool.live() <= most,
            Sign::Asleep => self.pool.is_asleep(1),
        }
    }

    /// Checks `LOOKS` times without a pause, and then yields the processor before each check.
    fn await_sign(&self, sign: Sign) {
        let mut looks: u32 = 0;
        for _ in self.rt.forever() {
            if self.shows(sign) || self.pool.is_stopped() {
                return;
            }
            if looks < LOOKS {
                looks += 1;
            } else {
                yield_now();
            }
        }
    }
}
