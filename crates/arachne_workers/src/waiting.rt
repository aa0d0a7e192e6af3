//! Short waits of a worker, which end without a wake by another worker.
use crate::hints::Hints;
use crate::policy;
use arachne_arbiter::Backoff;
use std::hint::spin_loop;
use std::thread;
use std::time::{Clock, Duration};

/// Spins or yields once, after `round` rounds (passes of the worker's loop) that found nothing.
///
/// In the first rounds the worker spins, longer in each, until a thread of `core` may be ready.
pub(crate) fn stay_awake<H: Clock>(
    rt: &H,
    backoff: &mut Backoff,
    hints: &Hints,
    core: u8,
    round: u32,
) {
    if !policy::spins(round, backoff.may_yield()) {
        backoff.yield_once(rt);
        return;
    }
    for _ in 0..policy::spins_of(round) {
        if hints.is_any(core) {
            break;
        }
        spin_loop();
    }
}

/// Waits briefly after a failed attempt to use a lock object that another kernel thread is using, and counts it.
///
/// `tries` is the number of such attempts in a row before. After the first attempts this call spins, longer each time.
/// Later it yields the processor or, if yields take long, sleeps.
pub fn stand_by<H: Clock>(rt: &H, backoff: &mut Backoff, tries: &mut u32) {
    let before = *tries;
    *tries = before.saturating_add(1);
    if policy::spins(before, backoff.may_yield()) {
        for _ in 0..policy::spins_of(before) {
            spin_loop();
        }
    } else if backoff.may_yield() {
        backoff.yield_once(rt);
    } else {
        thread::sleep(rt, Duration::from_micros(policy::STAND_BY));
    }
}
