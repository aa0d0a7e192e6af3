//! The job that answers one request of the list.
ghost use Rattle.std.specs.Prelude.{◌≡◌, ◌≤◌, IfSome};
ghost use Rattle.example_server.specs.Work.{earliest, mixed};

use crate::requests::{Class, Due};
use crate::timer::{SLOW, Timer};
use arachne_core::ThreadId;
use arachne_pool::{PoolJob, Step};
use arachne_table::Tagged;
use std::rt::Clock;
use std::sync::Arc;

/// A request that the sender has taken from the list of requests.
#[derive(Clone, Copy)]
pub struct Request {
    /// The index of the request in the list.
    pub number: u64,
    pub due: Due,
    /// The time at which the sender took the request from the list, in nanoseconds of the clock.
    pub taken: u64,
}

/// The answer to a request. The work of a slow request begins only after its timer has expired.
#[derive(Clone, Copy)]
pub struct Answer {
    pub request: Request,
    pub value: u64,
    /// The time at which the work began, in nanoseconds of the clock. `ended` is the time at which the work was done.
    pub began: u64,
    pub ended: u64,
    ghost right: { value ≡ mixed request.due.work request.number },
    ghost waited: { earliest request ≤ began },
}

/// The job that answers a request. The job has a clock, by which it records when it begins and ends.
#[derive(Drop)]
pub struct Job {
    request: Request,
    clock: HostRuntime,
    /// The time before which the work of a slow request may not begin, or 0. The timer wakes the job at this time.
    not_before: u64,
    timer: Option<Arc<Timer>>,
    ghost waits: { not_before ≡ earliest request },
}

impl Job {
    /// Returns the job that answers `request`, or `None` if it can't share the timer.
    pub fn new(request: Request, clock: HostRuntime, timer: &Arc<Timer>) -> Option<Job>
        ensures { IfSome result (λ job. job.request ≡ request) }
    {
        let (not_before, timer) = match request.due.class {
            Class::Normal | Class::Exclusive => (0, None),
            Class::Slow => (
                request.taken.saturating_add(SLOW),
                Some(timer.clone().ok()?),
            ),
        };
        Some(Job {
            request,
            clock,
            not_before,
            timer,
        })
    }
}

/// Returns the time of the clock in nanoseconds, or 0 if the clock can't be read.
pub fn now<R: Clock>(clock: &R) -> u64 {
    match clock.monotonic() {
        Ok(time) => u64::try_from(time.as_nanos()).unwrap_or(u64::MAX),
        Err(_) => 0,
    }
}

/// Does the work of a request: mixes the bits of `number` in `rounds` rounds.
fn mix(rounds: u32, number: u64) -> u64
    ensures { result ≡ mixed rounds number }
{
    let mut value = number;
    for _ in 0..rounds {
        let odd = value.wrapping_add(value).wrapping_add(1);
        value = value.wrapping_mul(odd).wrapping_add(1442695040888963407);
    }
    value
}

impl Tagged for Job {
    ghost tag_of = { λ job. job.request.number };

    fn tag(&self) -> u64 {
        self.request.number
    }
}

impl PoolJob for Job {
    type Output = Answer;

    ghost is_result = { λ job answer. answer.request ≡ job.request };

    ghost awaits = { λ _ _. Unit {0} };

    fn step(&mut self) -> Step<Job, Answer> {
        let began = now(&self.clock);
        // A job may make a step before the timer has woken it, so it compares the times in each step.
        if began < self.not_before {
            return Step::Sleeps;
        }
        let value = mix(self.request.due.work, self.request.number);
        Step::Done(Answer {
            request: self.request,
            value,
            began,
            ended: now(&self.clock),
        })
    }

    fn joined(&mut self, _output: Answer) {}

    fn sleeps_as(&self, id: ThreadId) {
        if let Some(timer) = &self.timer {
            timer.wake_at(self.not_before, id);
        }
    }

    fn is_exclusive(&self) -> bool {
        self.request.due.class == Class::Exclusive
    }
}
