//! The command line of `arachne`, and those of its commands that need only one kernel thread: `eval`, `check` and
//! `policy`.
#![tactic(auto)]

mod command_line;
mod ending;
mod fault;
mod judging;
mod orders;
mod output;
mod process;
mod samples;
mod serial;
mod stream;

pub use command_line::{NotAsked, Request, RunSettings, SerialRequest, read_words};
pub use ending::{DONE, finish, refuse, refuse_request, refuse_words};
pub use fault::{Fault, FaultLine, Place};
pub use judging::Settings;
pub use orders::read_order;
pub use output::{render, summary, write_thread};
pub use process::process_words;
pub use samples::read_samples;
pub use serial::{answer, checked_program, drive};
pub use stream::{INPUT_LIMIT, read_input};
