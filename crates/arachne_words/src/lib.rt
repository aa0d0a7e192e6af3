//! The context table on atomic words. Each call reads and changes a few words, and takes no lock.
//!
//! A *context* is the record of one user thread. Each core has thread slots (*places* in the code), and each slot has a
//! word with the number of the context there. Each context has a *mark word* with its state, its slot and its
//! generation. Each context also has a *value field* for the thread's value, which is empty while a worker runs the
//! thread. Each core has an *occupancy word* with a bit for each occupied slot. A *seat* is one kernel thread's right
//! to call the table. A seat *holds* a thread from the call that takes the thread until a call puts it back or ends it.
//!
//! Calls change the words by single atomic operations, which neither wait nor allocate. Between any two such
//! operations, no context and no slot belongs to two threads.
#![tactic(auto)]

mod call_seat;
mod claiming;
mod closing;
mod contexts;
mod ending;
mod finishing;
mod first_words;
mod moving;
mod posting;
mod resting;
mod seat;
mod seats;
mod steps;
mod table;
mod taking;
mod waking;

pub use seat::{WordClaim, WordHold, WordSeat};
pub use steps::ContextRule;
pub use table::WordContexts;
