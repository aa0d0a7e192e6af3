//! The C functions by which a host (the program that uses the library) uses locks.
ghost use Rattle.std.specs.Prelude.{◌≡◌};
ghost use Rattle.std.specs.declared.option.Option.TheVariants.{None};
ghost use Rattle.arachne_exec_c.specs.LockTold.{IsAskTold, IsFreeTold, IsWithdrawTold, IsCheckTold};
ghost use Rattle.arachne_exec_c.specs.Seating.{IsMade, IsSplit, IsJoined};
ghost use Rattle.arachne_exec_c.specs.SeatingHeld.{held, IsOfOne};

use crate::codes::{DONE, NO_MEMORY, REFUSED};
use crate::locks_handle::ArachneLocks;
use crate::seated::{Seated, join_held, split_held};
use crate::told::{
    ArachneLockTold, code_alone, told_asked, told_checked, told_freed, told_withdrawn,
};
use std::alloc::Global;

/// Creates `count` locks. Puts the first seat (a thread's right to use the locks) into `locks`, which must be empty.
///
/// Returns DONE; REFUSED if the handle is in use; NO_MEMORY if memory is refused.
#[unsafe(no_mangle)]
pub extern "C" fn arachne_locks_new(alloc: Global, locks: &mut ArachneLocks, count: usize) -> u32
    ensures { IsMade count (held locks.old) (held locks.new) result }
{
    if locks.is_in_use(alloc) {
        return REFUSED;
    }
    let Ok(seated) = Seated::new(alloc, count) else {
        return NO_MEMORY;
    };
    let Ok(value) = Box::new(alloc, Some(seated)) else {
        return NO_MEMORY;
    };
    locks.put(value);
    DONE
}

/// Splits the seat of `locks` (a thread's right to use the locks), and puts a new seat for another thread into `other`.
///
/// Returns DONE; REFUSED if `locks` is empty or `other` is in use; NO_MEMORY if memory is refused or the reference
/// count can't grow.
#[unsafe(no_mangle)]
#[tactic(auto, using(crate::proofs::SeatCut::is_split))]
pub extern "C" fn arachne_locks_split(
    alloc: Global,
    locks: &mut ArachneLocks,
    other: &mut ArachneLocks,
) -> u32
    ensures { IsSplit (held locks.old) (held other.old) (held locks.new) (held other.new) result }
{
    if other.is_in_use(alloc) || !locks.is_in_use(alloc) {
        return REFUSED;
    }
    let Some(mut mine) = locks.take(alloc) else {
        return REFUSED;
    };
    let Ok(mut theirs) = Box::new(alloc, None) else {
        locks.put(mine);
        return NO_MEMORY;
    };
    let is_split = split_held(&mut mine, &mut theirs);
    locks.put(mine);
    if !is_split {
        return NO_MEMORY;
    }
    other.put(theirs);
    DONE
}

/// Joins the seat of `other` (a thread's right to use the locks) into that of `locks`, and leaves `other` empty.
///
/// Returns DONE, or REFUSED if one of the handles is empty. Both handles must be of one set of locks, which the library
/// doesn't check. If they are not, the seat of `other` is only freed, as by `arachne_locks_close`.
#[unsafe(no_mangle)]
pub extern "C" fn arachne_locks_join(
    alloc: Global,
    locks: &mut ArachneLocks,
    other: &mut ArachneLocks,
) -> u32
    requires { IsOfOne locks.old other.old }
    ensures { IsJoined (held locks.old) (held other.old) (held locks.new) (held other.new) result }
{
    let Some(mut mine) = locks.take(alloc) else {
        return REFUSED;
    };
    let Some(mut theirs) = other.take(alloc) else {
        locks.put(mine);
        return REFUSED;
    };
    let code = join_held(&mut mine, &mut theirs);
    locks.put(mine);
    if code == REFUSED {
        other.put(theirs);
    }
    code
}

/// Empties a handle, and frees its seat (a thread's right to use the locks). The last handle also frees the locks.
#[unsafe(no_mangle)]
pub extern "C" fn arachne_locks_close(alloc: Global, locks: &mut ArachneLocks)
    ensures { held locks.new ≡ None }
{
    drop(locks.take(alloc));
}

/// Tries once to ask for a lock for the task with the number `who`.
///
/// Returns GRANTED if `who` holds the lock now; QUEUED if `who` now waits for the lock; ALREADY_IN if `who` already
/// held the lock or waited; NO_MEMORY if memory is refused, which happens only if `who` would have to wait; CONTENDED
/// if another thread was in a call on the lock; REFUSED if the handle is empty or there is no such lock.
#[unsafe(no_mangle)]
pub extern "C" fn arachne_lock_ask(
    alloc: Global,
    locks: &mut ArachneLocks,
    lock: usize,
    who: u64,
) -> ArachneLockTold
    ensures { IsAskTold lock who (held locks.old) (held locks.new) result }
{
    let Some(mut value) = locks.take(alloc) else {
        return code_alone(REFUSED);
    };
    let told = match &mut *value {
        Some(seated) if seated.has(lock) => told_asked(seated.ask(lock, who)),
        _ => code_alone(REFUSED),
    };
    locks.put(value);
    told
}

/// Tries once to free the lock with index `lock`, which the task `who` holds.
///
/// Returns FREED if nobody waited; HANDED_ON if the longest waiter (field `next`) holds the lock now; NOT_HOLDER if
/// `who` didn't hold the lock; CONTENDED if another thread was in a call on the lock; REFUSED if the handle is empty or
/// there is no such lock.
#[unsafe(no_mangle)]
pub extern "C" fn arachne_lock_free(
    alloc: Global,
    locks: &mut ArachneLocks,
    lock: usize,
    who: u64,
) -> ArachneLockTold
    ensures { IsFreeTold lock who (held locks.old) (held locks.new) result }
{
    let Some(mut value) = locks.take(alloc) else {
        return code_alone(REFUSED);
    };
    let told = match &mut *value {
        Some(seated) if seated.has(lock) => told_freed(seated.free(lock, who)),
        _ => code_alone(REFUSED),
    };
    locks.put(value);
    told
}

/// Tries once to take `who` out of the queue of a lock, for example because the future of `who` is dropped.
///
/// Returns LEFT if `who` waits no longer; GRANTED if `who` already holds the lock, so that the caller must free it;
/// NOT_HOLDER if `who` neither waited for the lock nor held it; CONTENDED if another thread was in a call on the lock;
/// REFUSED if the handle is empty or there is no such lock.
#[unsafe(no_mangle)]
pub extern "C" fn arachne_lock_withdraw(
    alloc: Global,
    locks: &mut ArachneLocks,
    lock: usize,
    who: u64,
) -> ArachneLockTold
    ensures { IsWithdrawTold lock who (held locks.old) (held locks.new) result }
{
    let Some(mut value) = locks.take(alloc) else {
        return code_alone(REFUSED);
    };
    let told = match &mut *value {
        Some(seated) if seated.has(lock) => told_withdrawn(seated.withdraw(lock, who)),
        _ => code_alone(REFUSED),
    };
    locks.put(value);
    told
}

/// Tries once to find out whether the task `who` holds the lock with index `lock`.
///
/// Returns GRANTED, with the event number of the grant, if `who` holds the lock; NOT_HOLDER if not; CONTENDED if
/// another thread was in a call on the lock; REFUSED if the handle is empty or there is no such lock.
#[unsafe(no_mangle)]
pub extern "C" fn arachne_lock_check(
    alloc: Global,
    locks: &mut ArachneLocks,
    lock: usize,
    who: u64,
) -> ArachneLockTold
    ensures { IsCheckTold lock who (held locks.old) (held locks.new) result }
{
    let Some(mut value) = locks.take(alloc) else {
        return code_alone(REFUSED);
    };
    let told = match &mut *value {
        Some(seated) if seated.has(lock) => told_checked(seated.check(lock, who)),
        _ => code_alone(REFUSED),
    };
    locks.put(value);
    told
}
