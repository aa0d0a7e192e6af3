//! A sequence of calls on two locks, each with its expected result.
ghost use Rattle.std.specs.Prelude.{◌<◌};
ghost use Rattle.arachne_lock.specs.Views.{IsSeatOf, IsLockAt};

use arachne_lock::{
    Admitted, AskRefusal, Attempt, LockSetSeat, Locks, NotOwner, Released, Withdrawn,
};
use std::alloc::AllocError;

#[derive(Clone, Copy)]
enum Call {
    Ask,
    Check,
    Free,
    Withdraw,
}

/// The name of a call's result, the number of its event at its lock, and the next holder, if any.
type Answer = (&'static str, u64, Option<u64>);

type Row = (Call, usize, u64, Answer);

/// Task 7 holds lock 0, tasks 8 and 9 wait for it, and task 8 stops waiting, so that task 9 is next.
///
/// Lock 1 must count only its own events.
const ROWS: &[Row] = &[
    (Call::Ask, 0, 7, ("granted", 1, None)),
    (Call::Ask, 0, 8, ("queued", 2, None)),
    (Call::Ask, 0, 9, ("queued", 3, None)),
    (Call::Ask, 0, 7, ("already in", 0, None)),
    (Call::Ask, 0, 8, ("already in", 0, None)),
    (Call::Ask, 1, 8, ("granted", 1, None)),
    (Call::Free, 0, 8, ("not its holder", 0, None)),
    (Call::Withdraw, 0, 7, ("holds", 1, None)),
    (Call::Withdraw, 0, 8, ("left", 4, None)),
    (Call::Withdraw, 0, 8, ("outside", 0, None)),
    (Call::Check, 0, 7, ("holds", 1, None)),
    (Call::Check, 0, 9, ("outside", 0, None)),
    (Call::Free, 0, 7, ("freed", 5, Some(9))),
    (Call::Check, 0, 9, ("holds", 6, None)),
    (Call::Withdraw, 0, 9, ("holds", 6, None)),
    (Call::Free, 0, 9, ("freed", 7, None)),
    (Call::Ask, 0, 8, ("granted", 9, None)),
    (Call::Free, 1, 8, ("freed", 2, None)),
];

/// Returns the result of a call, or `None` if another call was using the lock or memory was refused.
fn answer_to(
    locks: &Locks,
    seat: &mut LockSetSeat,
    call: Call,
    lock: usize,
    who: u64,
) -> Option<Answer>
    requires { IsLockAt locks.now seat.old.table lock }
    ensures { IsSeatOf locks.now seat.new }
{
    match call {
        Call::Ask => match locks.ask(seat, lock, who) {
            Attempt::Answered(Ok(Admitted::Granted { at })) => Some(("granted", at, None)),
            Attempt::Answered(Ok(Admitted::Queued { at })) => Some(("queued", at, None)),
            Attempt::Answered(Err(AskRefusal::AlreadyIn)) => Some(("already in", 0, None)),
            Attempt::Answered(Err(AskRefusal::Memory)) | Attempt::Contended => None,
        },
        Call::Check => match locks.check(seat, lock, who) {
            Attempt::Answered(Some(at)) => Some(("holds", at, None)),
            Attempt::Answered(None) => Some(("outside", 0, None)),
            Attempt::Contended => None,
        },
        Call::Free => match locks.free(seat, lock, who) {
            Attempt::Answered(Ok(Released { next, at })) => Some(("freed", at, next)),
            Attempt::Answered(Err(NotOwner)) => Some(("not its holder", 0, None)),
            Attempt::Contended => None,
        },
        Call::Withdraw => match locks.withdraw(seat, lock, who) {
            Attempt::Answered(Withdrawn::Left { at }) => Some(("left", at, None)),
            Attempt::Answered(Withdrawn::Holds { at }) => Some(("holds", at, None)),
            Attempt::Answered(Withdrawn::Outside) => Some(("outside", 0, None)),
            Attempt::Contended => None,
        },
    }
}

/// Returns the index of the first call whose result isn't the expected one, if there is one.
fn first_wrong(locks: &Locks, seat: &mut LockSetSeat) -> Option<usize>
    requires own { IsSeatOf locks.now seat.old }
    ensures { IsSeatOf locks.now seat.new }
{
    for (k, &(made, lock, who, answer)) in ROWS.iter().enumerate() {
        if lock >= locks.count() || answer_to(locks, seat, made, lock, who) != Some(answer) {
            return Some(k);
        }
    }
    None
}

#[test]
fn each_call_answers_as_its_row_says(rt: HostRuntime) -> Result<(), AllocError> {
    let (locks, mut seat) = Locks::new(rt.alloc(), 2)?;
    assert_eq!(rt; first_wrong(&locks, &mut seat), None);
    Ok(())
}
