//! The occupancy word of a core: which of its thread slots are occupied, packed into 64 bits.
ghost use Rattle.std.specs.Prelude.{◌≡◌, ◌≢◌, ◌<◌, ◌≤◌, ◌↔◌, ◌+◌, ◌^◌, ℕ, IsTrue, true, false, IsSome, IfSome, IfNone, EachIndex, slice_index_or, slice_set};
ghost use Rattle.arachne_core.specs.Occupancy.{mask_of, count_of, flags, occupancy_word, occupancy_of, IsOccupancyWord, vacant};

use crate::layout::MASK_BITS;
use std::marker::Model;

const COUNT_SHIFT: u32 = MASK_BITS as u32;

/// The mask of a core whose 56 thread slots are all occupied.
pub const FULL_MASK: u64 = (1 << COUNT_SHIFT) - 1;

/// The number to add to a core's occupancy word to raise its count of occupied slots by one.
pub const COUNT_ONE: u64 = 1 << COUNT_SHIFT;

const COUNT_MASK: u64 = (1 << 6) - 1;

const CLOSED: u64 = 1 << 62;

/// The bit of a core's occupancy word that is set if one thread has the core for itself.
pub const EXCLUSIVE: u64 = 1 << 63;

/// The occupancy word of a core, which says which of its thread slots are occupied.
///
/// Bits 0 to 55 are the mask of the occupied slots, and bits 56 to 61 their number. Bit 62 is set if the core is closed
/// (takes no new threads), and bit 63 if it is exclusive (one thread has it for itself).
#[derive(Clone, Copy, Debug, PartialEq, Eq)]
pub struct OccWord {
    word: u64,
}

impl Model for OccWord {
    ghost use Rattle.std.specs.Prelude.{◌≡◌};
    ghost use Rattle.arachne_core.specs.Occupancy.{Occupancy, occupancy_word, occupancy_of, IsOccupancyWord};

    ghost Value = { Occupancy };

    ghost view = { λ a. occupancy_of a.word };

    ghost invariant = { λ a. IsOccupancyWord a.word };

    ghost inverse = { λ c. record { word = occupancy_word c } };

    ghost inverse_ok = { λ a h. λ i. record { word = h i } };
}

impl OccWord {
    /// Returns the word of an open core with no occupied slot, which is 0.
    pub fn empty() -> Self
        ensures { result ≡ vacant }
    {
        OccWord { word: 0 }
    }

    /// Returns the word with this mask of occupied slots.
    pub fn new(mask: u64, closed: bool, exclusive: bool) -> Self
        requires { mask < 2 ^ MASK_BITS }
        ensures { result ≡ record { occupied = flags MASK_BITS mask; closed = closed; exclusive = exclusive } }
    {
        let count = u64::from(mask.count_ones());
        let closed = u64::from(closed);
        let exclusive = u64::from(exclusive);
        OccWord {
            word: mask + count * COUNT_ONE + closed * CLOSED + exclusive * EXCLUSIVE,
        }
    }

    /// Unpacks a core's occupancy word. Returns `None` if the count is not the number of set bits in the mask.
    pub fn from_word(word: u64) -> Option<Self>
        ensures some { IsSome result ↔ IsOccupancyWord word }
        ensures value { IfSome result (λ occ. occ ≡ occupancy_of word) }
    {
        if u64::from((word & FULL_MASK).count_ones()) == (word >> COUNT_SHIFT) & COUNT_MASK {
            Some(OccWord { word })
        } else {
            None
        }
    }

    /// Returns the packed word.
    pub fn word(self) -> u64
        ensures packed { result ≡ occupancy_word self }
        ensures read { IsOccupancyWord result × (occupancy_of result ≡ self) }
    {
        self.word
    }

    /// Returns the mask, in which bit i is set if slot i is occupied.
    pub fn mask(self) -> u64
        ensures bits { result ≡ mask_of self.occupied }
        ensures within { result < 2 ^ MASK_BITS }
    {
        self.word & FULL_MASK
    }

    /// Returns the number of occupied slots.
    pub fn count(self) -> u8
        ensures bits { result ≡ count_of self.occupied }
        ensures within { result ≤ MASK_BITS }
    {
        ((self.word >> COUNT_SHIFT) & COUNT_MASK) as u8
    }

    pub fn is_closed(self) -> bool
        ensures { result ≡ self.closed }
    {
        self.word & CLOSED != 0
    }

    pub fn is_exclusive(self) -> bool
        ensures { result ≡ self.exclusive }
    {
        self.word & EXCLUSIVE != 0
    }

    /// Returns true if no slot is occupied.
    pub fn is_empty(self) -> bool
        ensures { IsTrue result ↔ EachIndex self.occupied (λ i. slice_index_or self.occupied i false ≡ false) }
    {
        self.mask() == 0
    }

    pub fn is_occupied(self, index: u8) -> bool
        requires { index < MASK_BITS }
        ensures { result ≡ slice_index_or self.occupied index false }
    {
        (self.word >> u32::from(index)) & 1 == 1
    }

    /// Returns the lowest index of a free slot, or `None` if all 56 are occupied.
    pub fn lowest_free(self) -> Option<u8>
        ensures within { IfSome result (λ free. free < MASK_BITS) }
        ensures free { IfSome result (λ free. slice_index_or self.occupied free false ≡ false) }
        ensures lowest { IfSome result (λ free. (i : ℕ) → i < free → slice_index_or self.occupied i false ≡ true) }
        ensures none { IfNone result ((i : ℕ) → i < MASK_BITS → slice_index_or self.occupied i false ≡ true) }
    {
        let index = (self.word & FULL_MASK).trailing_ones();
        if index < u32::from(MASK_BITS) {
            Some(index as u8)
        } else {
            None
        }
    }

    /// Returns the lowest index below `slots` of a free slot, or `None` if no such slot is free.
    pub fn lowest_free_below(self, slots: u8) -> Option<u8>
        requires { slots ≤ MASK_BITS }
        ensures within { IfSome result (λ free. free < slots) }
        ensures free { IfSome result (λ free. slice_index_or self.occupied free false ≡ false) }
        ensures lowest { IfSome result (λ free. (i : ℕ) → i < free → slice_index_or self.occupied i false ≡ true) }
        ensures none { IfNone result ((i : ℕ) → i < slots → slice_index_or self.occupied i false ≡ true) }
    {
        match self.lowest_free() {
            Some(index) if index < slots => Some(index),
            _ => None,
        }
    }

    /// Returns a copy of this word in which slot `index` is occupied.
    pub fn with_bit(self, index: u8) -> Self
        requires { index < MASK_BITS }
        ensures { result ≡ record self { occupied = slice_set self.occupied index true } }
    {
        if self.is_occupied(index) {
            self
        } else {
            OccWord {
                word: self.word + ((1 << u32::from(index)) + COUNT_ONE),
            }
        }
    }

    /// Returns a copy of this word in which slot `index` is free.
    pub fn without_bit(self, index: u8) -> Self
        requires { index < MASK_BITS }
        ensures { result ≡ record self { occupied = slice_set self.occupied index false } }
    {
        if !self.is_occupied(index) {
            self
        } else {
            OccWord {
                word: self.word - ((1 << u32::from(index)) + COUNT_ONE),
            }
        }
    }

    pub fn with_closed(self, closed: bool) -> Self
        ensures { result ≡ record self { closed = closed } }
    {
        let old = self.word;
        let word = if closed { old | CLOSED } else { old & !CLOSED };
        OccWord { word }
    }

    pub fn with_exclusive(self, exclusive: bool) -> Self
        ensures { result ≡ record self { exclusive = exclusive } }
    {
        let old = self.word;
        let word = if exclusive {
            old | EXCLUSIVE
        } else {
            old & !EXCLUSIVE
        };
        OccWord { word }
    }
}
