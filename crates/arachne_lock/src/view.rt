//! The log that proofs keep for each seat (a kernel thread's right to call the locks).
use crate::QueueEvent;
use std::collections::LinkedList;

/// An event that a call caused, with its lock and its index in that lock's history.
pub struct LoggedEvent {
    pub lock: usize,
    pub at: usize,
    pub event: QueueEvent,
}

/// The history of a lock at the time when a call read it.
pub struct Sight {
    pub lock: usize,
    pub history: LinkedList<QueueEvent>,
}

/// One try to set a lock's atomic word, and the value that the try found in the word.
pub struct Try {
    pub lock: usize,
    pub found: u64,
}

/// The log of a seat (a kernel thread's right to call the locks).
pub struct EventLog {
    /// The events that the calls caused, oldest first.
    pub made: LinkedList<LoggedEvent>,
    /// The histories of locks that the calls have read, the newest first.
    pub seen: LinkedList<Sight>,
    /// The tries to set a lock's atomic word, the newest first.
    pub tries: LinkedList<Try>,
    /// The number of times that this seat, or a seat joined into it, was split.
    pub splits: u64,
}

/// A seat's log, and the lock on which a call through the seat is in progress, if there is one.
pub struct KnownLocks {
    /// False after the seat was joined into another seat.
    pub live: bool,
    pub out: Option<Sight>,
    pub log: EventLog,
}
