//! The log that proofs keep for each seat (a kernel thread's right to call a lock).
use crate::{LockEvent, Pass};
use arachne_weights::Token;
use std::collections::LinkedList;

/// An event that a call caused, and its index in the lock's history.
pub struct PlacedEvent {
    pub at: usize,
    pub event: LockEvent,
}

/// The kinds of operation on the lock's atomic word, which is 1 during a call on the lock.
pub enum Kind {
    /// A compare-exchange from 0 to 1. If the exchange succeeds, the caller has the lock's state.
    Take,
    /// A store of 0, with which the caller puts the lock's state back.
    GiveBack,
}

/// One atomic operation on a word: its kind, the word's index, and the word's values before and after.
pub struct Record {
    pub kind: Kind,
    pub word: usize,
    pub before: u64,
    pub after: u64,
}

/// The log of a seat (right to call the lock).
pub struct SeatLog {
    pub number: u8,
    /// The events that the seat's calls have caused.
    pub made: LinkedList<PlacedEvent>,
    /// The evidence of each grant that the seat's calls have returned.
    pub passes: LinkedList<Pass>,
    /// The history that the seat's last call read, and those in the logs of seats that were joined into the seat since.
    pub seen: LinkedList<LinkedList<LockEvent>>,
    /// The atomic operations of the seat's calls, the newest first.
    pub records: LinkedList<Record>,
}

/// The log of a seat, and `taken`, which is true while a call through the seat has the lock's state.
pub struct Known {
    pub taken: bool,
    pub log: SeatLog,
}

pub type View = Token<Known>;
