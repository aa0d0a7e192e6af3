//! Ledgers: counters to which many threads add at the same time, without a lock.
//!
//! Each ledger is one atomic word. A thread adds to ledgers through a *share* (a right to add). Contracts keep, for
//! each share, the sum of all amounts added through it, and a ledger's word is the total of these sums, modulo 2^64.
//! Shares are split for other threads and joined again. With the share into which all others were joined, a thread
//! closes the ledgers and gets their sums.
#![tactic(auto)]

mod laws;
mod ledgers;
mod share;
mod steps;

pub use laws::words_stay_the_sums;
pub use ledgers::Ledgers;
pub use share::{Reading, Share};
