//! A context table whose whole state is behind one lock, which is simpler and slower than the table on atomic words.
//!
//! A *seat* is one kernel thread's right to call the table. A seat holds a thread from the call that takes the thread
//! until a call puts it back or ends it. The lock protects the table's state (a `World` of `arachne_core`) and the
//! values of the threads that no seat holds. Between any two calls, no two threads share a context (the record of a
//! thread) or a thread slot of a core. Tests compare the table on atomic words with this table.
#![tactic(auto)]

mod homes;
mod locked;
mod seat;
mod slots;
mod state;
mod tokens;

pub use locked::LockedContexts;
pub use seat::LockedSeat;
pub use tokens::{LockedClaim, LockedHold};
