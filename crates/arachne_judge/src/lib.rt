//! Checks the log of a run, in tests.
//!
//! The observer of a run (`Gate`) logs the events that workers report, and the judge finds the first rule that the log
//! breaks. A *turn* of a thread lasts from when a worker takes the thread until the worker puts it back or ends it. A
//! turn has one or more *slices* of some steps each. A *scan* is a worker's pass over its core's slots. An *order*
//! closes a core, which then takes no more threads, or opens it again. Core 0 carries out all orders.
#![tactic(auto)]

mod case;
mod cores;
mod log;
mod rules;
mod scans;
mod threads;

pub use case::judge;
pub use log::{Entry, Log, What};
pub use rules::{Broken, Counts, Rule, Run, Verdict};
