//! Locks without memory: a free lock can be held and freed, and a refused request for a lock that has a holder leaves
//! the lock as it was.
ghost use Rattle.std.specs.Prelude.{◌<◌};
ghost use Rattle.arachne_lock.specs.Views.{IsSeatOf, IsLockAt};

use arachne_lock::{Admitted, AskRefusal, Attempt, LockSetSeat, Locks, Released, Withdrawn};
use arachne_shortage::Hoard;
use std::alloc::AllocError;

/// The number of bytes that the test frees after a refusal: so few that the next growth of a list is refused too.
const FEW: usize = 40;

const TRIES: u64 = 100_000;

const CROWD: u64 = 900;

/// Asks for a free lock and frees it, and returns true if it was granted at once, and nobody waited for it.
fn is_held_and_freed(locks: &Locks, seat: &mut LockSetSeat, lock: usize) -> bool
    requires { IsLockAt locks.now seat.old.table lock }
    ensures { IsSeatOf locks.now seat.new }
{
    let Attempt::Answered(Ok(Admitted::Granted { at: _ })) = locks.ask(seat, lock, 7) else {
        return false;
    };
    matches!(
        locks.free(seat, lock, 7),
        Attempt::Answered(Ok(Released { next: None, at: _ }))
    )
}

/// Asks for `lock` for the task `who`, again with a little more memory after each refusal, until the lock takes it in.
///
/// Returns the number of refusals, or `None` if one of them changed the lock.
fn asks_at_last(
    locks: &Locks,
    seat: &mut LockSetSeat,
    lock: usize,
    who: u64,
    hoard: &mut Hoard,
) -> Option<u64>
    requires { IsLockAt locks.now seat.old.table lock }
    ensures { IsSeatOf locks.now seat.new }
{
    for refused in 0..TRIES {
        match locks.ask(seat, lock, who) {
            Attempt::Answered(Ok(_)) => return Some(refused),
            Attempt::Answered(Err(AskRefusal::Memory)) => hoard.give_back(FEW),
            _ => return None,
        }
        let Attempt::Answered(Withdrawn::Outside) = locks.withdraw(seat, lock, who) else {
            return None;
        };
    }
    None
}

/// Asks for `lock` for each task of the crowd. Returns the number of refusals, or `None` if one of them changed the
/// lock.
fn all_ask(locks: &Locks, seat: &mut LockSetSeat, lock: usize, hoard: &mut Hoard) -> Option<u64>
    requires { IsLockAt locks.now seat.old.table lock }
    ensures { IsSeatOf locks.now seat.new }
{
    let mut refused = 0u64;
    for who in 0..CROWD {
        refused = refused.wrapping_add(asks_at_last(locks, seat, lock, who, hoard)?);
        hoard.take_again().ok()?;
    }
    Some(refused)
}

/// Frees the lock for each task of the crowd, which needs no memory, and returns the number of releases.
fn all_free(locks: &Locks, seat: &mut LockSetSeat, lock: usize) -> u64
    requires { IsLockAt locks.now seat.old.table lock }
    ensures { IsSeatOf locks.now seat.new }
{
    let mut freed = 0u64;
    for who in 0..CROWD {
        if let Attempt::Answered(Ok(_)) = locks.free(seat, lock, who) {
            freed = freed.wrapping_add(1);
        }
    }
    freed
}

#[test]
fn a_free_lock_takes_no_memory_and_a_wanted_one_stays(rt: HostRuntime) -> Result<(), AllocError> {
    let (locks, mut seat) = Locks::new(rt.alloc(), 1)?;
    let mut hoard = Hoard::take(rt.alloc())?;
    let is_free = is_held_and_freed(&locks, &mut seat, 0);
    let refused = all_ask(&locks, &mut seat, 0, &mut hoard);
    let freed = all_free(&locks, &mut seat, 0);
    let is_free_again = is_held_and_freed(&locks, &mut seat, 0);
    drop(hoard);
    assert!(rt; is_free && is_free_again && freed == CROWD);
    assert!(rt; matches!(refused, Some(refused) if refused > 0));
    Ok(())
}
