//! The mark word of a context: its state, its slot on a core, and its generation, packed into 64 bits.
ghost use Rattle.std.specs.Prelude.{◌≡◌, ◌<◌, ◌≤◌, ◌↔◌, IsSome, IfSome, ◌^◌};
ghost use Rattle.arachne_core.specs.Marked.{Marked, mark_word, marked_of, IsMarkWord, FitsWord};

use crate::layout::{CORE_BITS, CORES, FIRST_CORE_BITS, LAST_GENERATION, SLOTS};
use crate::mark::Mark;
use crate::place::Place;
use std::marker::Model;

const MARK_MASK: u64 = (1 << 3) - 1;

const ALONE: u64 = 1 << 3;

const INDEX_SHIFT: u32 = 4;

const INDEX_MASK: u64 = (1 << 6) - 1;

const CORE_SHIFT: u32 = 10;

const CORE_MASK: u64 = (1 << CORE_BITS) - 1;

const GENERATION_SHIFT: u32 = CORE_SHIFT + CORE_BITS;

const FIRST_CORE_MASK: u64 = (1 << FIRST_CORE_BITS) - 1;

const FIRST_GENERATION_SHIFT: u32 = CORE_SHIFT + FIRST_CORE_BITS;

/// The state, slot and generation (count of ended threads) of a context (user thread's record), packed into one word.
///
/// Bits 0 to 2 are the state, and bit 3 is set if the thread has its core for itself. Bits 4 to 9 are the slot's index,
/// bits 10 to 15 its core's number, and the bits above the generation.
#[derive(Clone, Copy, Debug, PartialEq, Eq)]
pub struct MarkWord {
    word: u64,
}

impl Model for MarkWord {
    ghost use Rattle.std.specs.Prelude.{◌≡◌, ◌<◌, ◌^◌};
    ghost use Rattle.arachne_core.specs.declared.layout.TheConstants.{CORE_BITS};
    ghost use Rattle.arachne_core.specs.Marked.{Marked, mark_word, marked_of, IsMarkWord};

    ghost Value = { Marked };

    ghost view = { λ a. marked_of CORE_BITS a.word };

    ghost invariant = { λ a. IsMarkWord CORE_BITS a.word };

    ghost inverse = { λ m. record { word = mark_word CORE_BITS m } };

    ghost inverse_ok = { λ a h. λ i. record { word = h.0 i } };
}

impl MarkWord {
    pub fn new(mark: Mark, alone: bool, place: Place, generation: u64) -> Self
        requires { FitsWord CORE_BITS (record { mark = mark; alone = alone; place = place; generation = generation }) }
        ensures { result ≡ record { mark = mark; alone = alone; place = place; generation = generation } }
    {
        let alone_bit = if alone { ALONE } else { 0 };
        let index = u64::from(place.index) << INDEX_SHIFT;
        let core = u64::from(place.core) << CORE_SHIFT;
        MarkWord {
            word: mark.code() + alone_bit + index + core + (generation << GENERATION_SHIFT),
        }
    }

    /// Unpacks a mark word (packed thread record). Returns `None` if the state is not one of the six, or the slot's
    /// index is not less than 56.
    pub fn from_word(word: u64) -> Option<Self>
        ensures some { IsSome result ↔ IsMarkWord CORE_BITS word }
        ensures value { IfSome result (λ mark. mark ≡ marked_of CORE_BITS word) }
    {
        if word & MARK_MASK < 6 && (word >> INDEX_SHIFT) & INDEX_MASK < u64::from(SLOTS) {
            Some(MarkWord { word })
        } else {
            None
        }
    }

    /// Converts a mark word (packed thread record) of the older layout: 4 bits for the core, 50 for the generation.
    ///
    /// Returns `None` if the state is none of the six, the slot's index is over 55, or the generation exceeds 48 bits.
    pub fn from_first(word: u64) -> Option<Self>
        ensures some { IsSome result ↔ (IsMarkWord FIRST_CORE_BITS word × ((marked_of FIRST_CORE_BITS word).generation ≤ LAST_GENERATION)) }
        ensures value { IfSome result (λ mark. mark ≡ marked_of FIRST_CORE_BITS word) }
    {
        let code = word & MARK_MASK;
        let index = (word >> INDEX_SHIFT) & INDEX_MASK;
        let generation = word >> FIRST_GENERATION_SHIFT;
        if code < 6 && index < u64::from(SLOTS) && generation <= LAST_GENERATION {
            let place = Place {
                core: ((word >> CORE_SHIFT) & FIRST_CORE_MASK) as u8,
                index: index as u8,
            };
            Some(Self::new(Mark::from_code(code), word & ALONE != 0, place, generation))
        } else {
            None
        }
    }

    /// Returns the packed word.
    pub fn word(self) -> u64
        ensures packed { result ≡ mark_word CORE_BITS self }
        ensures read { IsMarkWord CORE_BITS result × (marked_of CORE_BITS result ≡ self) }
    {
        self.word
    }

    pub fn mark(self) -> Mark
        ensures { result ≡ self.mark }
    {
        Mark::from_code(self.word & MARK_MASK)
    }

    /// Returns true if the thread has its core for itself.
    pub fn is_alone(self) -> bool
        ensures { result ≡ self.alone }
    {
        self.word & ALONE != 0
    }

    /// Returns the thread's slot, which is a core and an index there.
    pub fn place(self) -> Place
        ensures value { result ≡ self.place }
        ensures within { (result.core < CORES) × (result.index < SLOTS) }
    {
        Place {
            core: ((self.word >> CORE_SHIFT) & CORE_MASK) as u8,
            index: ((self.word >> INDEX_SHIFT) & INDEX_MASK) as u8,
        }
    }

    pub fn generation(self) -> u64
        ensures value { result ≡ self.generation }
        ensures within { result ≤ LAST_GENERATION }
    {
        self.word >> GENERATION_SHIFT
    }

    /// Returns a copy of this word with the state `mark`.
    pub fn with_mark(self, mark: Mark) -> Self
        ensures { result ≡ record self { mark = mark } }
    {
        MarkWord {
            word: (self.word & !MARK_MASK) + mark.code(),
        }
    }

    /// Returns a copy of this word with the slot `place`.
    pub fn with_place(self, place: Place) -> Self
        requires index { place.index < SLOTS }
        requires core { place.core < 2 ^ CORE_BITS }
        ensures { result ≡ record self { place = place } }
    {
        Self::new(self.mark(), self.is_alone(), place, self.generation())
    }
}
