//! The decisions of an arbiter, which is a daemon that grants cores to programs (its clients).
//!
//! The arbiter decides how many cores each client gets, and which cores go from one client to another. Every call only
//! computes with numbers. It allocates no memory and never waits.
#![tactic(auto)]

mod claims;
mod grants;
mod messages;
mod owners;
mod sessions;
mod state;

pub use claims::Client;
pub use grants::{targets, targets_are_decided};
pub use messages::{
    ClientMessage, MESSAGE_BYTES, MessageFault, PRIORITIES, PROTOCOL_VERSION,
    messages_are_unambiguous, read_message,
};
pub use owners::{MAX_OWNERS, count_held, give_free, moves, take_back};
pub use sessions::{ClientThread, MAX_THREADS};
pub use state::{CoreArbiter, Grant, MAX_CLIENTS, MAX_CORES, Refused, TakenCore};
