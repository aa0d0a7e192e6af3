//! Starts the kernel threads of a team, and joins them.
ghost use Rattle.std.specs.Prelude.{◌≡◌, ◌<◌, ◌≤◌, All, IfSome};
ghost use Rattle.std.specs.Thread.{IsSync};

use crate::team::{Team, TeamFault};
use std::alloc::Global;
use std::snapshot::Snapshot;
use std::sync::Wait;
use std::thread::{self, Promise, PromisedHandle, Threads};
use std::time::Clock;

/// The promise that the share that a kernel thread returns belongs to this team. Exists only for contracts.
#[derive(Drop)]
struct Returns<W> {
    team: Snapshot<W>,
}

impl<S, W: Team<S>> Promise<Option<S>> for Returns<W> {
    ghost kept_by = { λ promise share. IfSome share (W.has promise.team.value) };
}

/// Runs all kernel threads of a team, each with a part of `share`. Returns the parts joined, or `None` if one is lost.
///
/// The calling kernel thread has number 0. The call returns after all kernel threads of the team have ended. If memory
/// or a kernel thread is refused, calls `Team::fail`, and those that have begun continue without the others.
pub fn work_together<H: Threads + Wait + Clock + Sync, S: Drop + Send, W: Team<S> + Sync>(
    rt: &H,
    alloc: Global,
    team: &W,
    share: S,
) -> Option<S>
    requires share { W.has team.now share }
    requires some { 1 ≤ W.size team.now }
    ensures { IfSome result (W.has team.now) }
{
    thread::scope(
        thread::scope_env(),
        rt,
        |scope| -> Option<S>
            requires { IsSync H.row × W.has team.now share × (1 ≤ W.size team.now) }
            ensures { IfSome result (W.has team.entry.now) }
        {
            let mut share = share;
            let mut others = Vec::new(alloc);
            for number in 1..team.size() {
                if others.try_reserve(1).is_err() {
                    team.fail(rt, TeamFault::Memory);
                    break;
                }
                let (own, theirs) = team.part_off(rt, share);
                share = own;
                let Some(theirs) = theirs else {
                    team.fail(rt, TeamFault::Memory);
                    break;
                };
                let started = scope.spawn_with(
                    Returns {
                        team: Snapshot::of(team),
                    },
                    move || -> Option<S>
                        requires { W.has team.now theirs × (number < W.size team.now) }
                        ensures { IfSome result (W.has team.entry.now) }
                    { team.work(rt, number, theirs) },
                );
                let Ok(other) = started else {
                    team.fail(rt, TeamFault::KernelThread);
                    break;
                };
                others.push_reserved(other);
            }
            let own = team.work(rt, 0, share);
            join_all(rt, team, own, others)
        },
    )
}

/// Joins the other kernel threads. Returns all parts of the share joined, or `None` if one of them is lost.
fn join_all<H: Threads + Wait, S: Drop, W: Team<S>>(
    rt: &H,
    team: &W,
    own: Option<S>,
    others: Vec<PromisedHandle<Option<S>, Returns<W>>>,
) -> Option<S>
    requires own { IfSome own (W.has team.now) }
    requires others { All (λ other. other.promise.team.value ≡ team.now) others.items }
    ensures { IfSome result (W.has team.now) }
{
    let mut all = own;
    for other in others {
        all = match (all, other.join(rt)) {
            (Some(own), Some(theirs)) => team.join(rt, own, theirs),
            (_own, _theirs) => None,
        };
    }
    all
}
