//! Context tables, which have slots for user threads, and by which workers create, take, wake and move them.
//!
//! This crate has no code of its own. It re-exports the trait `Contexts` (`arachne_contexts`), the table behind a lock
//! (`arachne_locked`), the table on atomic words (`arachne_words`), and a law for each kind of atomic operation on
//! these words (`arachne_rule`).
#![tactic(auto)]

#[cfg(test)]
mod tests;

pub use arachne_contexts::{
    Claimed, Contexts, Held, Identified, Moved, Placed, Rested, Seats, Tagged, Taken, Woken,
};
pub use arachne_locked::{LockedClaim, LockedContexts, LockedHold, LockedSeat};
pub use arachne_rule::laws;
pub use arachne_words::{WordClaim, WordContexts, WordHold, WordSeat};
