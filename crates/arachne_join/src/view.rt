//! The record that proofs keep of each call on a cell. All types here are only for proofs.
use crate::state::CellState;

/// The role of a call's seat on a cell: the end that it has, or its last operation on the cell.
pub enum Role {
    /// The caller creates the cell, and has not taken over the value field yet.
    Maker,
    /// The caller has the sending end, which owns the value field.
    Sender,
    /// The caller left the value.
    Left,
    /// The caller put into the cell a value that only `take_back` can take.
    PutBack,
    /// The caller fetched the value.
    Fetched,
    /// The caller read the cell's word, and found the cell in this state.
    Saw(CellState),
    /// A role that no call ever has.
    Never,
}

/// The record of a call on a cell: its role, and the key for which the cell was made, if the record has it.
pub struct View<K> {
    pub role: Role,
    pub key: Option<K>,
}
