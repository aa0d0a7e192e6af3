//! A timer that wakes the job of each slow request after two milliseconds.
ghost use Rattle.arachne_pool.specs.Workers.{IsWorkerOf};

use crate::job::Job;
use crate::server::Server;
use arachne_core::ThreadId;
use arachne_pool::{Spawned, Worker};
use arachne_table::Contexts;
use std::alloc::{AllocError, Global};
use std::sync::Wait;
use std::sync::atomic::AtomicU64;
use std::sync::atomic::Ordering::SeqCst;

/// The time that the slow part of a request takes, in nanoseconds.
pub const SLOW: u64 = 2_000_000;

/// The time at which the job in a context (the table's record of a job) must be woken.
#[derive(Drop)]
struct Alarm {
    /// The time at which the timer must wake the job, or 0 if no alarm is set.
    at: AtomicU64,
    /// The generation number in the job's id, which differs for each job of a context.
    generation: AtomicU64,
}

/// A timer, with an alarm for each job that the pool's table can have.
#[derive(Drop)]
pub struct Timer {
    alarms: Vec<Alarm>,
}

impl Timer {
    /// Creates a timer without alarms, for the jobs in `contexts` contexts (the table's records of jobs).
    pub fn new(alloc: Global, contexts: u32) -> Result<Timer, AllocError> {
        let mut alarms = Vec::new(alloc);
        for _ in 0..contexts {
            alarms.push(Alarm {
                at: AtomicU64::new(0),
                generation: AtomicU64::new(0),
            })?;
        }
        Ok(Timer { alarms })
    }

    /// Sets the alarm for the job `id`, which is about to sleep, to the time `at`.
    pub fn wake_at(&self, at: u64, id: ThreadId) {
        if let Some(alarm) = self.alarms.get(id.context as usize) {
            // The time is stored last: a thread that reads the time then also reads the generation that belongs to it.
            alarm.generation.store(id.generation, SeqCst);
            alarm.at.store(at, SeqCst);
        }
    }

    /// Returns the number of jobs that wait for an alarm.
    pub fn sleepers(&self) -> u64 {
        let is_set = |alarm: &&Alarm| alarm.at.load(SeqCst) != 0;
        self.alarms.iter().filter(is_set).count() as u64
    }

    /// Returns the id of the job in this context, and clears the job's alarm, if the alarm's time has come.
    fn take_due(&self, context: u32, now: u64) -> Option<ThreadId> {
        let alarm = self.alarms.get(context as usize)?;
        let at = alarm.at.load(SeqCst);
        if at == 0 || now < at {
            return None;
        }
        // If a later job of the context has set its own alarm since that load, that alarm stays.
        alarm.at.compare_exchange(at, 0, SeqCst, SeqCst).ok()?;
        Some(ThreadId {
            context,
            generation: alarm.generation.load(SeqCst),
        })
    }
}

/// Wakes each job whose time has come.
pub fn wake_due<R: Wait, C: Contexts<Spawned<Job>>>(
    rt: &R,
    server: &Server<'_, C>,
    worker: &mut Worker<C::Seat, Job>,
    now: u64,
)
    requires { IsWorkerOf server.now.pool worker.old }
    ensures { IsWorkerOf server.now.pool worker.new }
{
    let contexts = u32::from(server.pool.cores) * u32::from(server.pool.slots);
    for context in 0..contexts {
        if let Some(id) = server.timer.take_due(context, now) {
            let _ = server.pool.wake(rt, worker, id);
        }
    }
}
