//! One user's right to a shared object, as contracts describe it: a part of the whole weight, and a record.

/// One user's right to a shared object, with the record `K` of what the user did. The type exists only for contracts.
pub struct Token<K> {
    /// True if the token wasn't joined into another. The token's weight can be 0 even then, since a split of a token
    /// with weight 1 gives two tokens with weight 0.
    pub live: bool,
    pub weight: u128,
    pub known: K,
}
