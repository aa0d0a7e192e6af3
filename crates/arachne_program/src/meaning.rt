//! The result of evaluating a program: its value, the sums of its ledgers, and its threads.
use crate::name::Name;
use crate::sequence::Sequence;

/// A thread's line in the report of a run: its name, and how often it held each lock, modulo 2^64.
#[derive(Debug, PartialEq, Eq, Drop)]
pub struct Line {
    pub name: Name,
    pub holds: Sequence<u64>,
}

/// The result of evaluating a program.
#[derive(Debug, PartialEq, Eq, Drop)]
pub struct Meaning {
    pub value: u64,
    /// For each ledger (a shared sum), the total that was added to it, modulo 2^64.
    pub totals: Sequence<u64>,
    /// A line for each of the program's threads, the root's first.
    pub threads: Sequence<Line>,
}
