//! The cells that a seat owns or may use, and the content of a cell's slot.
use std::snapshot::Snapshot;

/// The cells of a block that a seat may use.
pub enum Part<K> {
    /// All cells from an index on, which were not yet split off to other seats.
    Rest,
    /// One cell that was never used, and whose value field still belongs to the table.
    Fresh,
    /// One cell that is unused since its last value was fetched.
    Unused,
    /// One cell that was opened for this key, before it is split into a sender and a receiver.
    Opened(K),
    /// The sending end of a cell that was opened for this key, with the cell's empty value field.
    Sending(K),
    /// The receiving end of a cell that was opened for this key, and how often it looked and found no value.
    Receiving(K, u64),
    Spent,
}

/// A seat's record: the cells that it may use, the first one's index, and how many values have passed through that one.
pub struct PartView<K> {
    pub part: Part<K>,
    pub index: usize,
    pub passed: u64,
}

/// The content of a cell.
#[derive(Drop)]
pub enum Content<T, K> {
    Empty,
    /// The key of the next value, which exists only for proofs.
    For(Snapshot<K>),
    /// A value that was left in the cell, to be fetched.
    Value(T),
}
