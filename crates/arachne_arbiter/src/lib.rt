//! Closes and opens cores of a table of user threads while the threads run, and finds slots for new threads.
//!
//! An *order* closes or opens one core after a given number of *slices* (some steps of one thread each) have ended. The
//! crate carries out orders, and moves the threads of closed cores to other cores. The kernel thread of a closed core
//! is parked until the core is opened again. The crate also chooses the core of each new thread.
#![tactic(auto)]

mod arbiter;
mod backoff;
mod choice;
mod cores;
mod draining;
mod orders;
mod parking;
mod placement;
mod slices;

pub use arbiter::Arbiter;
pub use backoff::Backoff;
pub use choice::first_core;
pub use cores::Cores;
pub use parking::Parking;
pub use slices::SliceCounts;
