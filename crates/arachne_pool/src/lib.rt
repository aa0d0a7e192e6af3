//! A pool runs its user's jobs on the user's kernel threads, one for each core.
//!
//! A *job* is a value with a method `step`. A job can fork child jobs, can wait for their results, and ends with a
//! result. A *worker* is the value by which a kernel thread runs the jobs in the slots (places) of its core, at most
//! 56. The jobs of a core take turns, each for a few steps at a time (a *slice*). If no slot is free for a child, the
//! child waits inside its parent's slot, and runs there when the parent awaits it. An *order* closes a core, so that
//! the core takes no more jobs, or opens the core again.
#![tactic(auto)]

mod calls;
mod closing;
mod handle;
mod job;
mod links;
mod place;
mod pool;
mod running;
mod seat;
mod spawned;
mod spawning;
mod stack;
mod tally;
mod worker;

pub use arachne_contexts::Tagged;
pub use closing::{Left, NotClosed};
pub use handle::Handle;
pub use job::{PoolJob, Step};
pub use pool::Pool;
pub use running::{Finished, Unfinished};
pub use spawned::Spawned;
pub use spawning::{Refusal, Refused};
pub use stack::Jobs;
pub use tally::Tally;
pub use worker::{PoolFault, Worker};
