//! An interpreter for the threads of a task program, which can be interrupted after any step.
//!
//! A `Thread` evaluates its expressions with a stack of *frames*, each of which waits for the value of a part of an
//! expression. A child thread may get one of a core's thread slots (a *place* of its own). Otherwise the child runs
//! inside its parent's slot (*in its parent's place*), as a function call would. Of the threads inside one slot, the
//! *outermost* is the one that the slot was given to, and the *innermost* makes the next step.
//!
//! A thread *pauses* if its caller must do something for it, such as find a slot for a child or get a lock. A *ledger*
//! is a sum to which threads add and that no thread reads. Each ended thread has a *line* in the report of a run. A
//! *fold* is a sequential loop over a range of numbers. A *sweep* is a reduction over a range that is halved among
//! threads, down to a length, its *grain*.
#![tactic(auto)]

mod alone;
mod answer;
mod begin;
mod contents;
mod detached;
mod fork;
mod frame;
mod give;
mod join;
mod level;
mod line;
mod line_list;
mod lines;
mod lookup;
mod outcome;
mod pause;
mod placed;
mod placing;
mod spares;
mod state;
mod tables;
mod thread;
mod thread_lines;
mod turns;
mod worth;

pub use alone::run_alone;
pub use contents::Contents;
pub use detached::DetachedOutcome;
pub use line::{LineView, Ran, ThreadLine};
pub use outcome::{Outcome, OutcomeParts};
pub use pause::{NotJoined, NotPlaced, Pause, Pending};
pub use placing::{Everywhere, Placing, Tallying};
pub use spares::Spares;
pub use thread::Thread;
pub use thread_lines::{LinesLeft, ThreadLines};
