//! The commands of `arachne` (`run`, `eval`, `check` and `policy`), as functions of any arguments, reader and writers.
#![tactic(auto)]

mod fault;
mod program;
mod report;
mod running;

pub use arachne_cli::{process_words, read_order, read_samples, refuse_words};
pub use program::drive;
