//! A one-shot cell that a fork's parent and child share. The child leaves one value. Any thread that shares the cell
//! may fetch the value, but only one fetch gets it.
//!
//! A cell is made for a key, which exists only in proofs. Only a value that fits the key can be left in the cell, so
//! each fetched value fits the key. A cell consists of one atomic word and one *slot*, a field that one thread at a
//! time may access. No call locks or waits.
//!
//! A `JoinCell` has a table of its own for its word and its slot. An `UnusedCell` shares a table with the other cells
//! of its block, and is opened for one value after another. A *seat* is a thread's right to change the table. Callers
//! see no seats, only the sending and the receiving end of a cell.
#![tactic(auto)]

mod block;
mod block_steps;
mod cell;
mod ends;
mod fits;
mod part;
mod receipt;
mod sending_end;
mod spare;
mod state;
mod steps;
mod view;

pub use cell::{JoinCell, Missed};
pub use ends::{Receiver, Sender, UnusedCell};
pub use fits::Fits;
pub use receipt::Receipt;
pub use sending_end::SendingEnd;
pub use spare::SpareCells;
pub use state::CellState;
pub use view::Role;
