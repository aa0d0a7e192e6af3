//! Turns the results of calls on a lock into C structs.
ghost use Rattle.std.specs.Prelude.{◌≡◌};
ghost use Rattle.std.specs.declared.option.Option.{Option};
ghost use Rattle.arachne_exec_c.specs.LockTold.{code_alone, code_at, told_asked, told_freed, told_withdrawn, told_checked};

use crate::codes::{
    ALREADY_IN, CONTENDED, FREED, GRANTED, HANDED_ON, LEFT, NO_MEMORY, NOT_HOLDER, QUEUED,
};
use arachne_lock::{Admitted, AskRefusal, Attempt, NotOwner, Released, Withdrawn};

/// The result of a call on a lock. Each lock numbers its events (asks, grants, frees, withdrawals) from 0, modulo 2^64.
#[repr(C)]
#[derive(Clone, Copy)]
pub struct ArachneLockTold {
    /// The number of the event that this call caused. If a check or withdrawal returns GRANTED, that of the grant to
    /// `who`.
    pub at: u64,
    /// If a free has handed the lock on, the task that holds it now. The grant to this task has event number `at` + 1.
    pub next: u64,
    pub code: u32,
}

pub(crate) fn code_alone(code: u32) -> ArachneLockTold
    ensures { result ≡ code_alone code }
{
    code_at(code, 0)
}

fn code_at(code: u32, at: u64) -> ArachneLockTold
    ensures { result ≡ code_at code at }
{
    ArachneLockTold { at, next: 0, code }
}

pub(crate) fn told_asked(answer: Attempt<Result<Admitted, AskRefusal>>) -> ArachneLockTold
    ensures { result ≡ told_asked answer }
{
    match answer {
        Attempt::Contended => code_alone(CONTENDED),
        Attempt::Answered(Ok(Admitted::Granted { at })) => code_at(GRANTED, at),
        Attempt::Answered(Ok(Admitted::Queued { at })) => code_at(QUEUED, at),
        Attempt::Answered(Err(AskRefusal::AlreadyIn)) => code_alone(ALREADY_IN),
        Attempt::Answered(Err(AskRefusal::Memory)) => code_alone(NO_MEMORY),
    }
}

pub(crate) fn told_freed(answer: Attempt<Result<Released, NotOwner>>) -> ArachneLockTold
    ensures { result ≡ told_freed answer }
{
    match answer {
        Attempt::Contended => code_alone(CONTENDED),
        Attempt::Answered(Err(_)) => code_alone(NOT_HOLDER),
        Attempt::Answered(Ok(Released { next, at })) => match next {
            None => code_at(FREED, at),
            Some(next) => ArachneLockTold {
                at,
                next,
                code: HANDED_ON,
            },
        },
    }
}

pub(crate) fn told_withdrawn(answer: Attempt<Withdrawn>) -> ArachneLockTold
    ensures { result ≡ told_withdrawn answer }
{
    match answer {
        Attempt::Contended => code_alone(CONTENDED),
        Attempt::Answered(Withdrawn::Left { at }) => code_at(LEFT, at),
        Attempt::Answered(Withdrawn::Holds { at }) => code_at(GRANTED, at),
        Attempt::Answered(Withdrawn::Outside) => code_alone(NOT_HOLDER),
    }
}

pub(crate) fn told_checked(answer: Attempt<Option<u64>>) -> ArachneLockTold
    ensures { result ≡ told_checked answer }
{
    match answer {
        Attempt::Contended => code_alone(CONTENDED),
        Attempt::Answered(None) => code_alone(NOT_HOLDER),
        Attempt::Answered(Some(at)) => code_at(GRANTED, at),
    }
}
