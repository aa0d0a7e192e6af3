//! Makes the server's pool, starts its kernel threads, and closes the pool at the end.
ghost use Rattle.std.specs.Prelude.{◌≡◌, ◌+◌, ◌≤◌, IfOk, IfSome, None, Some, length, vec_len};
ghost use Rattle.arachne_pool.specs.Workers.{IsWorkerOf};

use crate::job::Job;
use crate::keeper::{Settings, order};
use crate::requests::Due;
use crate::send::Report;
use crate::server::{Server, Share};
use crate::timer::Timer;
use arachne_core::SLOTS;
use arachne_policy::OrderKind;
use arachne_pool::{Pool, Spawned};
use arachne_table::{Contexts, WordContexts};
use arachne_team::work_together;
use std::alloc::{AllocError, Global};
use std::sync::{Arc, Wait};
use std::thread::Threads;
use std::time::Clock;

/// Answers or refuses all requests of a list. Returns `None` if memory or a kernel thread is refused.
pub fn run<R: Threads + Wait + Clock + Sync>(
    rt: &R,
    alloc: Global,
    requests: &[Due],
    settings: Settings,
    clock: HostRuntime,
) -> Option<Report>
    ensures { IfSome result (λ report. vec_len report.answers + report.refused ≡ length requests.now) }
{
    let begun = begin::<WordContexts<Spawned<Job>>>(alloc, requests, settings, clock);
    let (server, share) = begun.ok()?;
    let share = work_together(rt, alloc, &server, share)?;
    end(rt, alloc, server.pool, share)
}

/// Creates the server, and the data that its kernel threads split among them. The pool has one more core than the
/// settings say, for the sender, and no job runs on it.
fn begin<C: Contexts<Spawned<Job>> + Drop>(
    alloc: Global,
    requests: &[Due],
    settings: Settings,
    clock: HostRuntime,
) -> Result<(Server<'_, C>, Share<C::Seat>), AllocError>
    ensures worker { IfOk result (λ made. IsWorkerOf made.0.pool made.1.worker) }
    ensures requests { IfOk result (λ made. made.0.requests.now ≡ requests.now) }
    ensures report { IfOk result (λ made. made.1.report ≡ None) }
    ensures some { IfOk result (λ made. 1 ≤ made.0.pool.cores) }
{
    let cores = settings.most + 1;
    let timer = Timer::new(alloc, u32::from(cores) * u32::from(SLOTS))?;
    let orders = vec![in alloc; order(OrderKind::Release, settings.most)]?;
    let (pool, worker) = Pool::<C>::new::<Job>(alloc, cores, SLOTS, orders)?;
    pool.keep_open();
    let server = Server {
        pool,
        timer: Arc::new(alloc, timer)?,
        requests,
        settings,
        clock,
        alloc,
    };
    let share = Share {
        worker,
        report: None,
    };
    Ok((server, share))
}

/// Closes the pool of a server that has ended. Returns the report, or `None` if a job is left or memory is refused.
fn end<C: Contexts<Spawned<Job>> + Drop, R: Wait>(
    rt: &R,
    alloc: Global,
    pool: Pool<C>,
    share: Share<C::Seat>,
) -> Option<Report>
    requires { IsWorkerOf pool share.worker }
    ensures { IfSome result (λ report. share.report ≡ Some report) }
{
    let Share { worker, report } = share;
    let left = pool.close(rt, alloc, worker).ok()?;
    if left.is_empty() { report } else { None }
}
