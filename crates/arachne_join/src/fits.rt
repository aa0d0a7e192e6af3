//! The trait that says which values can be left in a cell that was made for a given key.
/// Values that a cell can carry. The trait says, for proofs only, which of them a cell with a given key accepts.
pub trait Fits<K> {
    /// True if `leave` may put the value into a cell with this key, from which a fetch may then take it.
    ghost fits: { K → Self → Type 0 };

    /// True if `put_back` may put the value into a cell with this key, from which only `take_back` takes it. By
    /// default, no value may be put back.
    ghost may_wait: { K → Self → Type 0 } = { λ _ _. ⊥ };
}
