//! Two kernel threads take turns at a sleep lock (a lock whose waiters sleep), a thousand times each.

ghost use Rattle.std.specs.Prelude.{IfSome};
ghost use Rattle.arachne_sleep.specs.OneHolder.{HasOneHolderAtATime};
ghost use Rattle.arachne_sleep.specs.Views.{IsSeatOf};

use anyhow::{Context, Result};
use arachne_core::ThreadId;
use arachne_sleep::{Asked, History, LockSeat, SleepLock, Tried, Who};
use std::alloc::Global;
use std::sync::Wait;
use std::thread;
use std::thread::Threads;
use std::time::{Clock, Duration};

/// Asks for the lock, and returns when this thread holds it.
///
/// Returns `None` if memory is refused.
fn enter<R: Wait + Clock>(rt: &R, lock: &SleepLock, seat: &mut LockSeat, who: Who) -> Option<()>
    requires { IsSeatOf lock.now seat.old }
    ensures { IsSeatOf lock.now seat.new }
{
    for _ in rt.forever() {
        match lock.ask(seat, who) {
            Tried::Answered(Ok(Asked::Granted(_))) => return Some(()),
            // This thread is in the lock's queue: whichever thread frees the lock learns which one is next, and can
            // wake it.
            Tried::Answered(Ok(Asked::Queued { .. })) => break,
            Tried::Answered(Err(_)) => return None,
            // Another kernel thread's call on the lock is in progress, and this call has changed nothing: try again.
            Tried::Contended => thread::sleep(rt, Duration::from_micros(50)),
        }
    }
    for _ in rt.forever() {
        if let Tried::Answered(Some(_)) = lock.check(seat, who) {
            return Some(());
        }
        thread::sleep(rt, Duration::from_micros(50));
    }
    unreachable!()
}

/// Frees the lock. Returns `None` if the thread that `who` names doesn't hold the lock.
fn leave<R: Wait>(rt: &R, lock: &SleepLock, seat: &mut LockSeat, who: Who) -> Option<()>
    requires { IsSeatOf lock.now seat.old }
    ensures { IsSeatOf lock.now seat.new }
{
    for _ in rt.forever() {
        if let Tried::Answered(freed) = lock.free(seat, who) {
            return freed.ok().map(|_| ());
        }
    }
    unreachable!()
}

fn take_turns<R: Wait + Clock>(
    rt: &R,
    lock: &SleepLock,
    mut seat: LockSeat,
    tag: u64,
) -> Option<LockSeat>
    requires { IsSeatOf lock.now seat }
    ensures { IfSome result (IsSeatOf lock.now) }
{
    let id = ThreadId {
        context: 0,
        generation: tag,
    };
    for _ in 0..1000 {
        enter(rt, lock, &mut seat, Who { tag, id })?;
        leave(rt, lock, &mut seat, Who { tag, id })?;
    }
    Some(seat)
}

/// Closes the lock, which nobody may use any more, and returns its history of requests, grants and releases.
///
/// Returns `None` if another seat (a thread's right to use the lock) is still in use.
fn history(lock: SleepLock, seat: LockSeat) -> Option<History>
    requires { IsSeatOf lock seat }
    ensures { IfSome result (λ history. HasOneHolderAtATime history.items) }
{
    if !lock.is_whole(&seat) {
        return None;
    }
    lock.close(seat).ok()
}

pub fn show<R: Threads + Wait + Clock + Sync + Print>(rt: &R, alloc: Global) -> Result<()> {
    let (lock, seat) = SleepLock::new(alloc, 5)?;
    let (first, second) = lock.split(seat);
    let (first, second) = thread::join(
        rt,
        || take_turns(rt, &lock, first, 1),
        || take_turns(rt, &lock, second, 2),
    );
    let (first, second) = first.zip(second).context("memory was refused")?;
    let seat = lock.join_seats(first, second);
    let history = history(lock, seat).context("a seat is missing")?;
    println!(rt; "{} events", history.len())?;
    Ok(())
}
