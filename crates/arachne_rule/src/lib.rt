//! What holds for a table of user threads, made of atomic words, between any two atomic operations.
//!
//! A *context* is the record of one user thread, and a *place* one of a core's thread slots. Each core has an
//! *occupancy word*, whose bits say which places are occupied. Each context has a *mark word*, with the state, place
//! and generation of its thread, and a *value field* for the thread's value. Each place has a *place word*, the number
//! of the context there. The contracts describe a table by a `World` of `arachne_core`, a sequential table, for which
//! these words and the records of the seats (rights to call) stand. In a `World`, no two threads share a context or a
//! place. Each atomic operation (*step*) on a word is one event of a `World`. The operations themselves are in
//! `arachne_words`.
#![tactic(auto)]

pub mod laws;
mod layout;
mod view;

pub use layout::{BLOCK, NAMES, OCCUPANCY, SPACING};
pub use view::{Carried, Kind, Known, Record, Shape, View};
