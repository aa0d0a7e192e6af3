//! A test in which two kernel threads contend for two locks.
//!
//! Proofs show that the histories of locks are lawful. The test compares the histories with the grants that the threads
//! saw.
ghost use Rattle.std.specs.Prelude.{◌<◌, IfSome, length};
ghost use Rattle.arachne_sleep.specs.SleepLocks.{AreSeatsOf};

use super::{A, B, several};
use arachne_sleep::{AskFault, History, LockEvent, LockSeats, SleepLocks, Tried, Who};
use std::alloc::Global;
use std::thread;
use std::thread::Threads;

const ROUNDS: usize = 10_000;

const MOST_POLLS: u64 = 100_000_000;

/// Counts a poll, and returns `None` after too many.
fn poll(polls_left: &mut u64) -> Option<()> {
    *polls_left = polls_left.checked_sub(1)?;
    thread::yield_now();
    Some(())
}

/// The indexes of a thread's grants in the histories of the first and of the second lock, alternately.
type Places = Option<Vec<usize>>;

/// Returns true if every other one of `places`, from the first, is the index of a grant to `who`, in ascending order.
fn are_grants_in_order(history: &[LockEvent], who: Who, places: &[usize]) -> bool {
    let mut least = 0usize;
    for &at in places.iter().step_by(2) {
        if at < least || history.get(at) != Some(&LockEvent::Grant(who)) {
            return false;
        }
        least = at.wrapping_add(1);
    }
    true
}

fn enter_one(
    locks: &SleepLocks,
    seats: &mut LockSeats,
    lock: u8,
    who: Who,
    polls_left: &mut u64,
) -> Option<usize>
    requires own { AreSeatsOf locks.now seats.old }
    requires lock { lock < length locks.now }
    ensures { AreSeatsOf locks.now seats.new }
{
    for _ in 0..MOST_POLLS {
        match locks.ask(seats, lock, who) {
            Tried::Answered(Ok(_)) => break,
            Tried::Answered(Err(AskFault::AlreadyIn)) => return None,
            Tried::Answered(Err(AskFault::Memory)) | Tried::Contended => poll(polls_left)?,
        }
    }
    for _ in 0..MOST_POLLS {
        if let Tried::Answered(Some(pass)) = locks.check(seats, lock, who) {
            return Some(pass.at);
        }
        poll(polls_left)?;
    }
    None
}

fn leave_one(
    locks: &SleepLocks,
    seats: &mut LockSeats,
    lock: u8,
    who: Who,
    polls_left: &mut u64,
) -> Option<()>
    requires own { AreSeatsOf locks.now seats.old }
    requires lock { lock < length locks.now }
    ensures { AreSeatsOf locks.now seats.new }
{
    for _ in 0..MOST_POLLS {
        if let Tried::Answered(freed) = locks.free(seats, lock, who) {
            return freed.ok().map(|_| ());
        }
        poll(polls_left)?;
    }
    None
}

fn hold_each(alloc: Global, locks: &SleepLocks, seats: &mut LockSeats, who: Who) -> Places
    requires own { AreSeatsOf locks.now seats.old }
    requires two { 1 < length locks.now }
    ensures { AreSeatsOf locks.now seats.new }
{
    let mut polls_left = MOST_POLLS;
    let mut places = Vec::with_capacity(alloc, 2 * ROUNDS).ok()?;
    for k in 0..2 * ROUNDS {
        let lock = if k % 2 == 0 { 0 } else { 1 };
        places
            .push(enter_one(locks, seats, lock, who, &mut polls_left)?)
            .ok()?;
        leave_one(locks, seats, lock, who, &mut polls_left)?;
    }
    Some(places)
}

fn work_on_each(
    alloc: Global,
    locks: &SleepLocks,
    mut seats: LockSeats,
    who: Who,
) -> (LockSeats, Places)
    requires own { AreSeatsOf locks.now seats }
    requires two { 1 < length locks.now }
    ensures { AreSeatsOf locks.now result.0 }
{
    let places = hold_each(alloc, locks, &mut seats, who);
    (seats, places)
}

fn contend_for_each<R: Threads + Sync>(
    rt: &R,
    alloc: Global,
    locks: &SleepLocks,
    seats: LockSeats,
) -> Option<(LockSeats, Places, Places)>
    requires own { AreSeatsOf locks.now seats }
    requires two { 1 < length locks.now }
    ensures { IfSome result (λ r. AreSeatsOf locks.now r.0) }
{
    let (own, theirs) = locks.split(alloc, seats).ok()?;
    let ((own, of_a), (theirs, of_b)) = thread::join(
        rt,
        move || work_on_each(alloc, locks, own, A),
        move || work_on_each(alloc, locks, theirs, B),
    );
    Some((locks.join_seats(own, theirs), of_a, of_b))
}

/// Returns true if each history has `ROUNDS` grants to `who`, at the indexes in `places`.
fn tell_of(first: &[LockEvent], second: &[LockEvent], who: Who, places: &[usize]) -> bool {
    places.len() == 2 * ROUNDS
        && are_grants_in_order(first, who, places)
        && are_grants_in_order(second, who, &places[1..])
}

/// Returns true if the histories have exactly the grants that A and B saw, and their requests and releases.
fn tell_all(first: &[LockEvent], second: &[LockEvent], of_a: &[usize], of_b: &[usize]) -> bool {
    tell_of(first, second, A, of_a)
        && tell_of(first, second, B, of_b)
        && first.len() == 6 * ROUNDS
        && second.len() == 6 * ROUNDS
}

fn each_had_its_turns<R: Threads + Sync>(rt: &R, alloc: Global) -> Option<bool> {
    let (locks, seats) = SleepLocks::new(alloc, 2).ok()?;
    let (seats, of_a, of_b) = contend_for_each(rt, alloc, &locks, seats)?;
    let histories = several::closed(alloc, locks, seats)?;
    let [first, second] = histories.as_slice() else {
        return None;
    };
    let (first, second) = (first.to_vec(alloc).ok()?, second.to_vec(alloc).ok()?);
    Some(tell_all(&first, &second, &of_a?, &of_b?))
}

#[test]
fn two_kernel_threads_contend_for_two_locks(rt: HostRuntime) {
    assert!(rt; each_had_its_turns(&rt, rt.alloc()) == Some(true));
}
