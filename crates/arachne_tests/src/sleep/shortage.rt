//! Tests of a lock while memory for the threads that ask for it is refused, and of a lock with a long history.
use super::{A, B, thread};
use arachne_shortage::Hoard;
use arachne_sleep::{AskFault, LockState};
use std::alloc::AllocError;

/// The number of bytes that the test frees after a list could not grow: so few that the next growth is refused too.
const FEW: usize = 40;

const TRIES: u64 = 100_000;

const CROWD: u64 = 900;

/// Returns the number of refusals, or `None` if one of them changed the lock.
fn asks_at_last(lock: &mut LockState, tag: u64, hoard: &mut Hoard) -> Option<u64> {
    let (who, before) = (thread(tag, 0), lock.history().len());
    for refused in 0..TRIES {
        match lock.ask(who) {
            Ok(_) => return Some(refused),
            Err(AskFault::AlreadyIn) => return None,
            Err(AskFault::Memory) => hoard.give_back(FEW),
        }
        if lock.history().len() != before || lock.holds(who) || lock.waits(who) {
            return None;
        }
    }
    None
}

/// Returns the number of requests that were refused memory.
///
/// To free the lock needs no memory, so it must succeed for each thread.
fn comes_and_leaves(lock: &mut LockState, hoard: &mut Hoard) -> Option<u64> {
    let mut refused = 0u64;
    for tag in 0..CROWD {
        refused = refused.wrapping_add(asks_at_last(lock, tag, hoard)?);
        hoard.take_again().ok()?;
    }
    for tag in 0..CROWD {
        lock.free(thread(tag, 0)).ok()?;
    }
    Some(refused)
}

#[test]
fn a_wanted_lock_stays_as_it_was(rt: HostRuntime) -> Result<(), AllocError> {
    let mut lock = LockState::new(rt.alloc(), 5);
    let mut hoard = Hoard::take(rt.alloc())?;
    let first = comes_and_leaves(&mut lock, &mut hoard);
    let then = comes_and_leaves(&mut lock, &mut hoard);
    drop(hoard);
    let is_refused = matches!(first, Some(refused) if refused > 100) && then.is_some();
    assert!(rt; is_refused && lock.into_history().len() == 5400);
    Ok(())
}

fn passes(lock: &mut LockState) -> bool {
    lock.ask(A).is_ok() && lock.ask(B).is_ok() && lock.free(A).is_ok() && lock.free(B).is_ok()
}

#[test]
fn a_lock_with_120_000_events_is_asked_for(rt: HostRuntime) {
    let mut lock = LockState::new(rt.alloc(), 0);
    let mut went = true;
    for _ in 0..20_000 {
        went &= passes(&mut lock);
    }
    assert!(rt; went && lock.history().len() == 120_000);
}
