//! The data that all kernel threads of the server share. One of them sends requests, and each of the others runs their
//! jobs on a core.
ghost use Rattle.std.specs.Prelude.{◌≡◌, ◌+◌, IfSome, length, vec_len};
ghost use Rattle.arachne_pool.specs.Workers.{IsWorkerOf};

use crate::job::Job;
use crate::keeper::Settings;
use crate::requests::Due;
use crate::send::{Report, send};
use crate::timer::Timer;
use arachne_pool::{Pool, Spawned, Worker};
use arachne_table::{Contexts, Seats};
use arachne_team::{Team, TeamFault};
use std::alloc::Global;
use std::sync::{Arc, Wait};
use std::time::Clock;

/// The data that all kernel threads of the server share. Thread 0 sends requests, and thread n runs core n - 1.
#[derive(Drop)]
pub struct Server<'r, C: Seats> {
    pub pool: Pool<C>,
    pub timer: Arc<Timer>,
    pub requests: &'r [Due],
    pub settings: Settings,
    pub clock: HostRuntime,
    pub alloc: Global,
    ghost cores: { pool.cores ≡ settings.most + 1 },
}

/// The data of one kernel thread: its worker, and at the end the sender's report.
#[derive(Drop)]
pub struct Share<S> {
    pub worker: Worker<S, Job>,
    pub report: Option<Report>,
}

impl<'r, C: Contexts<Spawned<Job>>> Team<Share<C::Seat>> for Server<'r, C> {
    ghost has = { λ server share. IsWorkerOf server.pool share.worker
        × IfSome share.report (λ report. vec_len report.answers + report.refused ≡ length server.requests.now) };

    ghost size = { λ server. server.pool.cores };

    fn size(&self) -> u8 {
        self.pool.cores
    }

    fn part_off<R: Wait>(
        &self,
        rt: &R,
        share: Share<C::Seat>,
    ) -> (Share<C::Seat>, Option<Share<C::Seat>>) {
        let Share { worker, report } = share;
        let (worker, theirs) = self.pool.split(rt, worker);
        let theirs = Share {
            worker: theirs,
            report: None,
        };
        (Share { worker, report }, Some(theirs))
    }

    fn work<R: Wait + Clock>(
        &self,
        rt: &R,
        number: u8,
        share: Share<C::Seat>,
    ) -> Option<Share<C::Seat>> {
        let Share { mut worker, report } = share;
        if number > 0 {
            self.pool.work(rt, &mut worker, number - 1).ok()?;
            return Some(Share { worker, report });
        }
        let Some((worker, report)) = send::<R, C>(rt, self, worker) else {
            self.pool.stop();
            return None;
        };
        Some(Share {
            worker,
            report: Some(report),
        })
    }

    fn join<R: Wait>(
        &self,
        rt: &R,
        share: Share<C::Seat>,
        other: Share<C::Seat>,
    ) -> Option<Share<C::Seat>> {
        let Share { worker, report } = share;
        let worker = self.pool.join_workers(rt, worker, other.worker).ok()?;
        Some(Share { worker, report })
    }

    fn fail<R: Wait>(&self, _rt: &R, _fault: TeamFault) {
        self.pool.stop();
    }
}
