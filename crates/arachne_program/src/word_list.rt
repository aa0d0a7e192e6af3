//! Lists of up to 6 numbers below 2^32 in 28 bytes, so that thread names of such numbers need no allocation.
ghost use Rattle.std.specs.Prelude.{◌≡◌, ◌<◌, ◌≤◌, ◌^◌, [], ◌∷◌, ◌++◌, ◌↔◌, length, IfOk, IsTrue, SomeIff};

use std::alloc::{AllocError, Global};
use std::marker::Model;

const ROOM: usize = 6;

/// 2^32, the least number that a `WordList` can't store.
const TOO_LARGE: u64 = 1 << 32;

/// A list of at most 6 numbers below 2^32, stored in its own 28 bytes without an allocation.
#[derive(Debug, Drop)]
pub struct WordList {
    len: u32,
    words: [u32; ROOM],
}

impl Model for WordList {
    ghost use Rattle.std.specs.Prelude.{ℕ, ◌≤◌, List, take};

    ghost Value = { List ℕ };

    ghost view = { λ list. take list.len list.words };

    ghost invariant = { λ list. list.len ≤ 6 };
}

impl WordList {
    pub fn empty() -> WordList
        ensures { result ≡ [] }
    {
        WordList {
            len: 0,
            words: [0; ROOM],
        }
    }

    /// Returns the list of the numbers in `bytes`, or `None` if `bytes` has more than 6.
    pub fn of_bytes(bytes: &[u8]) -> Option<WordList>
        ensures { SomeIff result (length bytes.now ≤ 6) bytes.now }
    {
        let mut list = WordList::empty();
        for byte in bytes {
            list = list.with(u64::from(*byte))?;
        }
        Some(list)
    }

    pub fn as_slice(&self) -> &[u32]
        ensures { result.now ≡ self.now }
    {
        &self.words[..self.len as usize]
    }

    /// Returns this list with `number` appended, or `None` if the list is full or `number` is 2^32 or more.
    pub fn with(&self, number: u64) -> Option<WordList>
        ensures { SomeIff result ((length self.now < 6) × (number < 2 ^ 32)) (self.now ++ number ∷ []) }
    {
        let at = self.len as usize;
        if at == ROOM || number >= TOO_LARGE {
            return None;
        }
        let mut words = self.words;
        words[at] = number as u32;
        Some(WordList {
            len: self.len + 1,
            words,
        })
    }

    /// Returns whether this list equals `front` with `number` appended.
    pub fn is_longer_by(&self, front: &WordList, number: u64) -> bool
        ensures { IsTrue result ↔ (self.now ≡ front.now ++ number ∷ []) }
    {
        match self.as_slice().split_last() {
            Some((last, others)) => u64::from(*last) == number && others == front.as_slice(),
            None => false,
        }
    }

    /// Returns a `Vec` of this list's numbers and of `number`, which may be 2^32 or more.
    pub fn widened(&self, alloc: Global, number: u64) -> Result<Vec<u64>, AllocError>
        ensures { IfOk result (λ longer. longer.items ≡ self.now ++ number ∷ []) }
    {
        let words = self.as_slice();
        let mut longer = Vec::with_capacity(alloc, words.len() + 1)?;
        for word in words {
            longer.push(u64::from(*word))?;
        }
        longer.push(number)?;
        Ok(longer)
    }
}
