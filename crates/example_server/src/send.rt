//! The *sender*, a kernel thread that reads the list of requests like one from a network, and spawns a job for each.
//!
//! The sender also wakes jobs whose timer has expired, takes the answers, and opens or closes cores.
ghost use Rattle.std.specs.Prelude.{◌≡◌, ◌+◌, ◌<◌, IfOk, IfSome, IsSome, OnSome, Some, if◌then◌else◌, length, slice_get, vec_len};
ghost use Rattle.std.specs.VecDeque.{deque_len};
ghost use Rattle.arachne_pool.specs.Workers.{IsWorkerOf};

use crate::job::{Answer, Job, Request, now};
use crate::keeper::{Judged, Keeper};
use crate::requests::Due;
use crate::server::Server;
use crate::timer::wake_due;
use arachne_pool::{Handle, Refusal, Spawned, Worker};
use arachne_table::Contexts;
use std::collections::VecDeque;
use std::sync::Wait;
use std::time::Clock;

/// The time between two checks of the timers and the load, in nanoseconds.
const BETWEEN_LOOKS: u64 = 20_000;

/// The report of the server, after all requests were answered or refused.
#[derive(Drop)]
pub struct Report {
    /// The time at which the server began, in nanoseconds of the clock.
    pub begin: u64,
    /// The answers to the requests, in the order in which the requests were sent.
    pub answers: Vec<Answer>,
    /// The number of requests that the server refused.
    pub refused: usize,
    /// The time, in nanoseconds, that the work of the answered requests took.
    busy: u64,
    /// The measurements of the load, each with the policy's advice.
    pub judged: Vec<Judged>,
}

/// Answers or refuses all requests of the server's list.
///
/// Refuses a request that has waited longer than `Settings::patience` while no slot was free. Returns `None` if memory
/// is refused, or if the pool is stopped first.
pub fn send<R: Wait + Clock, C: Contexts<Spawned<Job>>>(
    rt: &R,
    server: &Server<'_, C>,
    mut worker: Worker<C::Seat, Job>,
) -> Option<(Worker<C::Seat, Job>, Report)>
    requires { IsWorkerOf server.now.pool worker }
    ensures worker { IfSome result (λ sent. IsWorkerOf server.now.pool sent.0) }
    ensures all { IfSome result (λ sent. vec_len sent.1.answers + sent.1.refused ≡ length server.now.requests.now) }
{
    let begin = now(rt);
    let mut report = Report {
        begin,
        answers: Vec::with_capacity(server.alloc, server.requests.len()).ok()?,
        refused: 0,
        busy: 0,
        judged: Vec::new(server.alloc),
    };
    let mut keeper = Keeper::new(server.alloc, server.settings, begin);
    send_all::<R, C>(rt, server, &mut worker, &mut keeper, &mut report)?;
    server.pool.finish();
    report.judged = keeper.judged;
    Some((worker, report))
}

/// The loop of `send`, which answers or refuses all requests.
fn send_all<R: Wait + Clock, C: Contexts<Spawned<Job>>>(
    rt: &R,
    server: &Server<'_, C>,
    worker: &mut Worker<C::Seat, Job>,
    keeper: &mut Keeper,
    report: &mut Report,
) -> Option<()>
    requires worker { IsWorkerOf server.now.pool worker.old }
    requires cores { keeper.old.most + 1 ≡ server.now.pool.cores }
    requires none { (vec_len report.old.answers ≡ 0) × (report.old.refused ≡ 0) }
    ensures worker { IsWorkerOf server.now.pool worker.new }
    ensures all { OnSome result (vec_len report.new.answers + report.new.refused ≡ length server.now.requests.now) }
{
    let mut sent: VecDeque<Handle<Job>> = VecDeque::new(server.alloc);
    let mut next: usize = 0;
    // The time of the next check of the timers and the load.
    let mut look = report.begin;
    for _ in rt.forever() {
        let now = now(rt);
        if let Some(request) = due_by(server.requests, next, report.begin, now)
            && settles::<R, C>(rt, server, worker, request, report, &mut sent)?
        {
            next += 1;
        }
        take_answer(&mut sent, report)?;
        if next == server.requests.len() && sent.is_empty() {
            return Some(());
        }
        if server.pool.is_stopped() {
            return None;
        }
        if look <= now {
            look = now.saturating_add(BETWEEN_LOOKS);
            wake_due::<R, C>(rt, server, worker, now);
            keep_cores::<R, C>(rt, server, worker, keeper, now, report.busy)?;
        }
    }
    unreachable!()
}

/// Returns the request at index `next` of the list, if it has arrived at the time `now`.
fn due_by(requests: &[Due], next: usize, begin: u64, now: u64) -> Option<Request>
    ensures next { IfSome result (λ request. request.number ≡ next) }
    ensures due { IfSome result (λ request. Some request.due ≡ slice_get requests.now next) }
    ensures within { IsSome result → next < length requests.now }
{
    let due = *requests.get(next)?;
    if now.saturating_sub(begin) < due.at {
        return None;
    }
    Some(Request {
        number: next as u64,
        due,
        taken: now,
    })
}

/// Spawns the job of a request. If no slot is free, refuses a request that has waited longer than `Settings::patience`.
/// Returns false if the request must go on waiting, and `None` if memory is refused.
fn settles<R: Wait, C: Contexts<Spawned<Job>>>(
    rt: &R,
    server: &Server<'_, C>,
    worker: &mut Worker<C::Seat, Job>,
    request: Request,
    report: &mut Report,
    sent: &mut VecDeque<Handle<Job>>,
) -> Option<bool>
    requires worker { IsWorkerOf server.now.pool worker.old }
    requires few { report.old.refused < usize.MAX }
    ensures worker { IsWorkerOf server.now.pool worker.new }
    ensures answers { vec_len report.new.answers ≡ vec_len report.old.answers }
    ensures all { IfSome result (λ settled. report.new.refused + deque_len sent.new ≡ report.old.refused + deque_len sent.old + (if settled then 1 else 0)) }
{
    let job = Job::new(request, server.clock, &server.timer)?;
    match server.pool.try_spawn(rt, worker, job) {
        Ok(handle) => sent.push_back(handle).ok().map(|_| true),
        Err(refused) => match refused.why {
            Refusal::NoPlace => {
                let due = report.begin.saturating_add(request.due.at);
                let is_late = request.taken.saturating_sub(due) > server.settings.patience;
                report.refused += usize::from(is_late);
                Some(is_late)
            }
            Refusal::Memory | Refusal::NoSeat => None,
        },
    }
}

/// Takes the answer to the oldest request in `sent`, if its job has ended. Returns `None` if memory is refused.
fn take_answer(sent: &mut VecDeque<Handle<Job>>, report: &mut Report) -> Option<()>
    ensures all { OnSome result (vec_len report.new.answers + deque_len sent.new ≡ vec_len report.old.answers + deque_len sent.old) }
    ensures refused { report.new.refused ≡ report.old.refused }
{
    let Some(first) = sent.pop_front() else {
        return Some(());
    };
    match first.poll() {
        Ok(answer) => {
            let work = answer.ended.saturating_sub(answer.began);
            report.busy = report.busy.saturating_add(work);
            report.answers.push(answer).ok()
        }
        Err(first) => sent.push_front(first).ok(),
    }
}

/// Measures the load, and gives the pool the order to open or close a core that follows. Returns `None` if memory is
/// refused.
fn keep_cores<R: Wait + Clock, C: Contexts<Spawned<Job>>>(
    rt: &R,
    server: &Server<'_, C>,
    worker: &mut Worker<C::Seat, Job>,
    keeper: &mut Keeper,
    now: u64,
    busy: u64,
) -> Option<()>
    requires worker { IsWorkerOf server.now.pool worker.old }
    requires cores { keeper.old.most + 1 ≡ server.now.pool.cores }
    ensures worker { IsWorkerOf server.now.pool worker.new }
    ensures most { keeper.new.most ≡ keeper.old.most }
{
    let asleep = server.timer.sleepers();
    let runnable = server.pool.live().saturating_sub(asleep);
    if let Some(order) = keeper.scan(now, runnable, busy) {
        let orders = vec![in server.alloc; order].ok()?;
        server.pool.order(rt, worker, orders).ok()?;
    }
    // A pass of the worker's loop on the sender's core. The core is closed, so the pass only carries out orders.
    server.pool.turn(rt, worker, keeper.most).ok()?;
    Some(())
}
