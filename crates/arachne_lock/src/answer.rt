//! The results of calls on a lock.
use std::alloc::AllocError;
use thiserror::Error;

/// The result of asking for a lock. A lock's events (asks, grants, frees and leaves) have numbers from 0, modulo 2^64.
#[derive(Clone, Copy, Debug, PartialEq, Eq)]
pub enum Admitted {
    /// Nobody held the lock, so the task holds it now.
    Granted {
        /// The event number of the grant. Later grants of the same lock have greater numbers.
        at: u64,
    },
    /// Another task holds the lock, so the task waits at the end of the queue.
    Queued {
        /// The event number of the task's ask.
        at: u64,
    },
}

/// The result of a call that doesn't wait while another kernel thread is in a call on the lock.
#[derive(Clone, Copy, Debug, PartialEq, Eq)]
pub enum Attempt<A> {
    /// The call did its work on the lock's state, with this result.
    Answered(A),
    /// Another kernel thread was in a call on the lock. Nothing has changed, and the caller may try again.
    Contended,
}

/// The reason why an ask is refused.
#[derive(Clone, Copy, Debug, PartialEq, Eq, Error)]
pub enum AskRefusal {
    #[error("it owns the lock or waits for it already")]
    AlreadyIn,
    #[error("out of memory")]
    Memory,
}

impl From<AllocError> for AskRefusal {
    ghost use Rattle.std.specs.Prelude.{◌≡◌};
    ghost use Rattle.arachne_lock.specs.declared.answer.AskRefusal.TheVariants.{Memory};

    ghost from_gives = { λ _ e. e ≡ Memory };

    fn from(_: AllocError) -> Self {
        AskRefusal::Memory
    }
}

/// The result of freeing a lock.
#[derive(Clone, Copy, Debug, PartialEq, Eq)]
pub struct Released {
    /// The task that had waited longest, which holds the lock now and must be woken. `None` if no task waited.
    pub next: Option<u64>,
    /// The event number of this free. The grant to `next` has the following event number.
    pub at: u64,
}

/// The error if a task frees a lock that it doesn't hold.
#[derive(Clone, Copy, Debug, PartialEq, Eq, Error)]
#[error("it does not hold the lock")]
pub struct NotOwner;

/// The result of `withdraw`, by which a task leaves the queue of a lock.
#[derive(Clone, Copy, Debug, PartialEq, Eq)]
pub enum Withdrawn {
    /// The task has left the queue, and will not get the lock unless it asks again.
    Left {
        /// The event number of the leave.
        at: u64,
    },
    /// The task already holds the lock, and must still free it.
    Holds {
        /// The event number of the grant.
        at: u64,
    },
    /// The task neither holds the lock nor waits for it.
    Outside,
}
