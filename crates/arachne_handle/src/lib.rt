//! Turns a box into the pointer by which C holds the box, and back. A null pointer holds no box.
#![tactic(auto)]

mod handle;
mod loose;

pub use handle::Handle;
