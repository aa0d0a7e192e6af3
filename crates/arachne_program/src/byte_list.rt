//! Lists of up to 30 numbers below 256 in 31 bytes, so that short thread names need no allocation.
ghost use Rattle.std.specs.Prelude.{◌≡◌, ◌<◌, [], ◌∷◌, ◌++◌, ◌↔◌, length, IfOk, IsTrue, SomeIff};

use std::alloc::{AllocError, Global};
use std::marker::Model;

const ROOM: usize = 30;

/// A list of at most 30 numbers below 256, stored in its own 31 bytes without an allocation.
#[derive(Debug, Drop)]
pub struct ByteList {
    len: u8,
    bytes: [u8; ROOM],
}

impl Model for ByteList {
    ghost use Rattle.std.specs.Prelude.{ℕ, ◌≤◌, List, take};

    ghost Value = { List ℕ };

    ghost view = { λ list. take list.len list.bytes };

    ghost invariant = { λ list. list.len ≤ 30 };
}

impl ByteList {
    pub fn empty() -> ByteList
        ensures { result ≡ [] }
    {
        ByteList {
            len: 0,
            bytes: [0; ROOM],
        }
    }

    pub fn as_slice(&self) -> &[u8]
        ensures { result.now ≡ self.now }
    {
        &self.bytes[..usize::from(self.len)]
    }

    /// Returns this list with `number` appended, or `None` if the list is full or `number` is 256 or more.
    pub fn with(&self, number: u64) -> Option<ByteList>
        ensures { SomeIff result ((length self.now < 30) × (number < 256)) (self.now ++ number ∷ []) }
    {
        let at = usize::from(self.len);
        if at == ROOM || number >= 256 {
            return None;
        }
        let mut bytes = self.bytes;
        bytes[at] = number as u8;
        Some(ByteList {
            len: self.len + 1,
            bytes,
        })
    }
    /// Returns whether this list equals `front` with `number` appended.
    pub fn is_longer_by(&self, front: &ByteList, number: u64) -> bool
        ensures { IsTrue result ↔ (self.now ≡ front.now ++ number ∷ []) }
    {
        match self.as_slice().split_last() {
            Some((last, others)) => u64::from(*last) == number && others == front.as_slice(),
            None => false,
        }
    }

    /// Returns a `Vec` of this list's numbers and of `number`, which may be 256 or more.
    pub fn widened(&self, alloc: Global, number: u64) -> Result<Vec<u64>, AllocError>
        ensures { IfOk result (λ longer. longer.items ≡ self.now ++ number ∷ []) }
    {
        let bytes = self.as_slice();
        let mut longer = Vec::with_capacity(alloc, usize::from(self.len) + 1)?;
        for byte in bytes {
            longer.push(u64::from(*byte))?;
        }
        longer.push(number)?;
        Ok(longer)
    }
}
