//! Facts that are proved of every table of user threads and of its packed words, as contracts of empty functions.

ghost use Rattle.std.specs.Prelude.{◌≡◌, ℕ, ◌+◌, ◌-◌, ◌*◌, ◌/◌, ◌%◌, ◌^◌, ◌<◌, ◌↔◌, List, length, slice_index_or, true, false, bit_and, bit_or};
ghost use Rattle.arachne_core.specs.declared.mark.Mark.{Mark};
ghost use Rattle.arachne_core.specs.declared.place.Place.{Place};
ghost use Rattle.arachne_core.specs.declared.event.Event.{Event};
ghost use Rattle.arachne_core.specs.Marked.{Marked, mark_word, marked_of, IsMarkWord, with_mark, with_place};
ghost use Rattle.arachne_core.specs.Occupancy.{Occupancy, count_of, occupancy_word, occupancy_of, count_field, IsOccupancyWord, HasOneMore};
ghost use Rattle.arachne_core.specs.World.{World, IsHeldBy, Allowed, after};
ghost use Rattle.arachne_core.specs.OwnedOnce.{OwnedOnce};
ghost use Rattle.arachne_core.specs.Run.{IsOpening, IsRun, after_all, SharesNothing, IsDrained, NeverOpens, NeverLetsGo};

use crate::layout::{CORE_BITS, CORES, GENERATION_BITS, LAST_GENERATION, MASK_BITS, SLOTS};

/// In a new table of user threads, no two threads share a context (thread record) or a slot.
pub fn opening_is_owned_once()
    ensures { (w : World) (first : ℕ) → IsOpening w first → OwnedOnce w }
{}

/// Each change of a table (a claim, a post, a take or another) that its state allows keeps this: no two user threads
/// share a context (thread record) or a slot.
pub fn events_keep_owned_once()
    ensures { (w : World) (e : Event) → OwnedOnce w → Allowed w e → OwnedOnce (after w e) }
{}

pub fn runs_keep_owned_once()
    ensures { (w : World) (es : List Event) → OwnedOnce w → IsRun w es → OwnedOnce (after_all w es) }
{}

/// In a table in which no two user threads share a context (thread record) or a slot, no two kernel threads run the
/// same user thread.
pub fn owned_once_shares_nothing()
    ensures { (w : World) → OwnedOnce w → SharesNothing w }
{}

/// A user thread stays with the kernel thread that runs it until that kernel thread puts it back or ends it.
pub fn holder_keeps_its_thread()
    ensures { (w : World) (es : List Event) (h x : ℕ) → IsHeldBy h (w.state x) → IsRun w es → NeverLetsGo h x es → IsHeldBy h ((after_all w es).state x) }
{}

pub fn drained_core_stays_drained()
    ensures { (w : World) (es : List Event) (c : ℕ) → IsDrained w c → IsRun w es → NeverOpens c es → IsDrained (after_all w es) c }
{}

/// The packed words have room for exactly 64 cores, 56 thread slots on each, and generations of 48 bits.
pub fn sizes()
    ensures cores { (CORES ≡ 64) × (CORES ≡ 2 ^ CORE_BITS) }
    ensures slots { (SLOTS ≡ 56) × (MASK_BITS ≡ SLOTS) }
    ensures generations { (LAST_GENERATION + 1 ≡ 2 ^ 48) × (10 + CORE_BITS + GENERATION_BITS ≡ 64) }
{}

pub fn occupancy_words_read_as_packed()
    ensures { (c : Occupancy) → length c.occupied ≡ MASK_BITS → occupancy_of (occupancy_word c) ≡ c }
{}

/// A number is a valid occupancy word of a core exactly if it has 64 bits and its count is the number of set bits of
/// its mask.
pub fn occupancy_words_pack_as_read()
    ensures { (word : ℕ) → IsOccupancyWord word ↔ ((word < 2 ^ 64) × (count_field word ≡ count_of (occupancy_of word).occupied)) }
{}

/// Adding bit i of a free slot i to a core's occupancy word, and 1 to its count, makes only that slot occupied.
pub fn adding_an_index()
    ensures { (word i : ℕ) → IsOccupancyWord word → i < MASK_BITS → slice_index_or (occupancy_of word).occupied i false ≡ false
        → HasOneMore word i (word + (2 ^ i + 2 ^ MASK_BITS)) }
{}

/// Subtracting bit i of an occupied slot i from a core's occupancy word, and 1 from its count, frees only that slot.
pub fn taking_an_index_away()
    ensures { (word i : ℕ) → IsOccupancyWord word → i < MASK_BITS → slice_index_or (occupancy_of word).occupied i false ≡ true
        → HasOneMore (word - (2 ^ i + 2 ^ MASK_BITS)) i word }
{}

/// Setting bit 62 of a core's occupancy word closes the core, clearing it opens the core, and nothing else changes.
pub fn closing_and_opening()
    ensures closing { (word : ℕ) → IsOccupancyWord word
        → IsOccupancyWord (bit_or word (2 ^ 62)) × (occupancy_of (bit_or word (2 ^ 62)) ≡ record (occupancy_of word) { closed = true }) }
    ensures opening { (word : ℕ) → IsOccupancyWord word
        → IsOccupancyWord (bit_and word (2 ^ 64 - 1 - 2 ^ 62)) × (occupancy_of (bit_and word (2 ^ 64 - 1 - 2 ^ 62)) ≡ record (occupancy_of word) { closed = false }) }
{}

/// Adding `2^63` to a shared core's occupancy word makes the core exclusive to one thread, and changes nothing else.
pub fn adding_exclusive()
    ensures { (word : ℕ) → IsOccupancyWord word → (occupancy_of word).exclusive ≡ false
        → IsOccupancyWord (word + 2 ^ 63) × (occupancy_of (word + 2 ^ 63) ≡ record (occupancy_of word) { exclusive = true }) }
{}

/// Subtracting `2^63` from an exclusive core's occupancy word makes the core shared, and changes nothing else.
pub fn taking_exclusive_away()
    ensures { (word : ℕ) → IsOccupancyWord word → (occupancy_of word).exclusive ≡ true
        → IsOccupancyWord (word - 2 ^ 63) × (occupancy_of (word - 2 ^ 63) ≡ record (occupancy_of word) { exclusive = false }) }
{}

pub fn mark_words_read_as_packed()
    ensures { (bits : ℕ) (m : Marked) → m.place.index < 2 ^ 6 → m.place.core < 2 ^ bits → marked_of bits (mark_word bits m) ≡ m }
{}

/// A number is a valid mark word (a context's packed state) exactly if it has 64 bits, its state is one of the six, and
/// its slot's index is less than 56.
pub fn mark_words_pack_as_read()
    ensures { (bits word : ℕ) → IsMarkWord bits word ↔ ((word < 2 ^ 64) × (word % 2 ^ 3 < 6) × (word / 2 ^ 4 % 2 ^ 6 < SLOTS)) }
{}

/// To set the state in a mark word (a context's packed state) changes no other field.
pub fn setting_a_mark()
    ensures { (bits word : ℕ) (mark : Mark) → marked_of bits (with_mark word mark) ≡ record (marked_of bits word) { mark = mark } }
{}

/// To set the slot in a mark word (a context's packed state) changes no other field.
pub fn setting_a_place()
    ensures { (bits word : ℕ) (place : Place) → place.index < 2 ^ 6 → place.core < 2 ^ bits
        → marked_of bits (with_place bits word place) ≡ record (marked_of bits word) { place = place } }
{}
