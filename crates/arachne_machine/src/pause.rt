//! The reasons why a thread pauses, each with the call that resumes it.
use crate::thread::Thread;
use arachne_program::Class;
use std::fmt;
use thiserror::Error;

/// The reason why a thread has paused, which says what the caller must do next.
#[derive(Drop)]
pub enum Pause<'p> {
    /// The thread has made all the steps that it was allowed. Call `advance` again.
    Budget,
    /// The thread has forked this child, of this class (normal or exclusive). Take the child and call `forked`, or pass
    /// the child to `in_place`, which runs it inside this thread's slot.
    Forks(Class, Thread<'p>),
    /// The thread waits to join a child. Pass the child's outcome to `joined`, or the child itself to `in_place`.
    Joins,
    /// The thread asks for the lock of this number. Get the lock for the thread, then call `granted`.
    Asks(u64),
    /// The thread releases the lock of this number. Free the lock and call `freed`.
    Frees(u64),
    /// The thread adds to a ledger (fields: the ledger's number, the amount). Add the amount, then call `tallied`.
    Tallies(u64, u64),
    /// The thread has ended. Call `finish` to get the thread's outcome.
    Ended,
}

/// The unfulfilled request of a paused thread, or `Ended`.
#[derive(Clone, Copy, Debug, PartialEq, Eq)]
pub enum Pending {
    Forks,
    Joins,
    /// The thread asks for the lock of this number.
    Asks(u64),
    /// The thread releases the lock of this number.
    Frees(u64),
    /// The thread asks to add to a ledger. Fields: the ledger's number, and the amount.
    Tallies(u64, u64),
    Ended,
}

/// The reason why an outcome was not joined, with that outcome.
#[derive(Drop, Error)]
pub enum NotJoined<O> {
    /// The outcome is not that of the child that the thread waits for.
    #[error("the outcome of another thread")]
    Foreign(O),
    #[error("out of memory")]
    Memory(O),
}

impl<O> fmt::Debug for NotJoined<O> {
    fn fmt<W: fmt::Write>(&self, f: &mut fmt::Formatter<W>) -> fmt::Result {
        match self {
            NotJoined::Foreign(_) => write!(f, "Foreign"),
            NotJoined::Memory(_) => write!(f, "Memory"),
        }
    }
}

/// The reason why a child can't run inside its parent's thread slot, with that child.
#[derive(Drop, Error)]
pub enum NotPlaced<'p> {
    /// The child is not the one that the thread waits to join.
    #[error("another thread")]
    Foreign(Thread<'p>),
    #[error("out of memory")]
    Memory(Thread<'p>),
}

impl<'p> fmt::Debug for NotPlaced<'p> {
    fn fmt<W: fmt::Write>(&self, f: &mut fmt::Formatter<W>) -> fmt::Result {
        match self {
            NotPlaced::Foreign(_) => write!(f, "Foreign"),
            NotPlaced::Memory(_) => write!(f, "Memory"),
        }
    }
}
