//! Runs a task program on several cores. Each core has one kernel thread, its *worker*, which runs user threads.
//!
//! A *ticket* is the entry of a forked child in the queue of those that wait for a free slot. A worker's *chooser* is
//! the random generator by which a fork chooses a core for its child. An *order* closes a core, which then takes no
//! more threads, or opens it again, while the program runs. A worker's *tokens* are its rights to use the shared
//! objects: its seat at the table of threads, its pass of the ticket queue, its share of the ledgers and its seats at
//! the locks. Each worker returns its tokens when it ends, and the objects are closed when all tokens were returned.
#![tactic(auto)]

mod access;
mod fault;
mod forking;
mod gate;
mod granted;
mod machine;
mod report;
mod resources;
mod running;
mod seat;
mod setup;
mod shared;
mod workers;

pub use arachne_jobs::{Job, RunJob, SpillPass, SpillQueue, Ticket};
pub use arachne_workers::{Cause, SliceEnd, WorkerEvent};
pub use fault::{RunFault, WorkerFault};
pub use gate::{Gate, OpenGate};
pub use report::Report;
pub use running::{run, run_on_words};
pub use setup::Setup;
