//! The state of a daemon that grants cores to programs, and the messages that it reads, as a C library.
//!
//! C holds an arbiter (the daemon's state) through a *handle*, which is one pointer. An empty handle is a null pointer,
//! with which C begins. No call waits, sleeps or locks, and only `arachne_arbiter_new` allocates memory.
//! `scripts/declarations` makes `examples/c/arachne_grants.h` and `examples/rust/arachne_grants/declared.rs` from these
//! files.
#![tactic(auto)]

mod arbiter;
mod arbiter_handle;
mod arbiter_told;
mod codes;
mod events;
mod message;
mod turns;

pub use arbiter_handle::ArachneArbiter;
pub use arbiter_told::{ArachneAction, ArachneShare};
pub use message::ArachneMessage;
