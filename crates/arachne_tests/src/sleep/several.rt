//! Tests of a set of several locks: each call once, and that closing the set returns the locks' histories in order.
ghost use Rattle.std.specs.Prelude.{◌<◌, length};
ghost use Rattle.arachne_sleep.specs.SleepLocks.{AreSeatsOf};

use super::{A, B, C};
use arachne_sleep::{
    AskFault, Asked, Freed, History, LockEvent, LockSeats, NotHolder, SleepLocks, Tried, Who,
};
use std::alloc::Global;

#[derive(Clone, Copy)]
enum Call {
    Ask,
    Check,
    Free,
}

/// The name of a call's result, the index of the event in the lock's history (or 0), and the next holder, if any.
type Answer = (&'static str, usize, Option<Who>);

type Rows = &'static [(Call, Who, Answer)];

const ROWS: Rows = &[
    (Call::Ask, A, ("granted", 1, None)),
    (Call::Ask, B, ("queued", 2, None)),
    (Call::Ask, C, ("queued", 3, None)),
    (Call::Ask, A, ("already in", 0, None)),
    (Call::Ask, B, ("already in", 0, None)),
    (Call::Free, B, ("not its holder", 0, None)),
    (Call::Check, A, ("pass", 1, None)),
    (Call::Check, B, ("no pass", 0, None)),
    (Call::Free, A, ("freed", 4, Some(B))),
    (Call::Check, B, ("pass", 5, None)),
    (Call::Free, B, ("freed", 6, Some(C))),
    (Call::Free, C, ("freed", 8, None)),
    (Call::Check, C, ("no pass", 0, None)),
];

const WHOLE: &[LockEvent] = &[
    LockEvent::Ask(A),
    LockEvent::Grant(A),
    LockEvent::Ask(B),
    LockEvent::Ask(C),
    LockEvent::Free(A),
    LockEvent::Grant(B),
    LockEvent::Free(B),
    LockEvent::Grant(C),
    LockEvent::Free(C),
];

/// Returns `None` if another kernel thread was using the lock, memory was refused, or a pass is of another lock or
/// thread.
fn called(
    locks: &SleepLocks,
    seats: &mut LockSeats,
    lock: u8,
    call: Call,
    who: Who,
) -> Option<Answer>
    requires own { AreSeatsOf locks.now seats.old }
    requires lock { lock < length locks.now }
    ensures { AreSeatsOf locks.now seats.new }
{
    let (told, pass) = match call {
        Call::Ask => match locks.ask(seats, lock, who) {
            Tried::Answered(Ok(Asked::Granted(pass))) => ("granted", pass),
            Tried::Answered(Ok(Asked::Queued { at })) => return Some(("queued", at, None)),
            Tried::Answered(Err(AskFault::AlreadyIn)) => return Some(("already in", 0, None)),
            Tried::Answered(Err(AskFault::Memory)) | Tried::Contended => return None,
        },
        Call::Check => match locks.check(seats, lock, who) {
            Tried::Answered(Some(pass)) => ("pass", pass),
            Tried::Answered(None) => return Some(("no pass", 0, None)),
            Tried::Contended => return None,
        },
        Call::Free => match locks.free(seats, lock, who) {
            Tried::Answered(Ok(Freed { next, at })) => return Some(("freed", at, next)),
            Tried::Answered(Err(NotHolder)) => return Some(("not its holder", 0, None)),
            Tried::Contended => return None,
        },
    };
    if pass.lock == lock && pass.who == who {
        Some((told, pass.at, None))
    } else {
        None
    }
}

/// Returns the index of the first call with a wrong result, if there is one.
fn first_wrong(locks: &SleepLocks, seats: &mut LockSeats) -> Option<usize>
    requires own { AreSeatsOf locks.now seats.old }
    requires lock { 2 < length locks.now }
    ensures { AreSeatsOf locks.now seats.new }
{
    for k in 0..ROWS.len() {
        let (call, who, answer) = ROWS[k];
        if called(locks, seats, 2, call, who) != Some(answer) {
            return Some(k);
        }
    }
    None
}

fn has_events(history: &History, events: &[LockEvent]) -> bool {
    history.len() == events.len()
        && history
            .iter()
            .zip(events)
            .all(|(event, wanted)| event == *wanted)
}

/// Returns true if only the history of lock 2, on which the calls were made, has events, and these are `WHOLE`.
fn is_of_the_last(histories: &[History]) -> bool {
    histories.len() == 3
        && histories[0].is_empty()
        && histories[1].is_empty()
        && has_events(&histories[2], WHOLE)
}

fn histories(alloc: Global) -> Option<Vec<History>> {
    let (locks, mut seats) = SleepLocks::new(alloc, 3).ok()?;
    if locks.count() != 3 || first_wrong(&locks, &mut seats).is_some() {
        return None;
    }
    closed(alloc, locks, seats)
}

fn are_right(alloc: Global) -> bool {
    match histories(alloc) {
        Some(histories) => is_of_the_last(histories.as_slice()),
        None => false,
    }
}

#[test]
fn each_call_on_three_locks(rt: HostRuntime) {
    assert!(rt; are_right(rt.alloc()));
}

/// Returns the locks' histories, if all seats were joined.
pub(super) fn closed(alloc: Global, locks: SleepLocks, seats: LockSeats) -> Option<Vec<History>>
    requires { AreSeatsOf locks seats }
{
    if !locks.are_whole(&seats) {
        return None;
    }
    locks.close(alloc, seats).ok()
}
