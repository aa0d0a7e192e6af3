//! The trait by which a table creates its first seat, splits a seat into two, and joins two seats into one.
ghost use Rattle.std.specs.Prelude.{◌≡◌, ◌≤◌, ◌↔◌, ℕ, IfOk, IsTrue};
ghost use Rattle.arachne_weights.specs.Weight.{whole, first_part, second_part, joined};

use arachne_core::{CORES, LAST_GENERATION, SLOTS};
use std::alloc::{AllocError, Global};
use std::sync::Wait;

/// A table that is called through seats, each of which is one kernel thread's right to call the table that made it.
///
/// A seat's *weight* is its part of the first seat's weight. A split halves the weight, and a join adds the two
/// weights. A seat with the whole weight is the table's only seat.
pub trait Seats {
    type Seat: Drop;

    /// True if the seat (right to call) belongs to this table.
    ghost sits: { Self → Self.Seat → Type 0 };

    /// True if the seat (right to call) has no unused claim of a thread slot and holds no thread.
    ghost idle: { Self → Self.Seat → Type 0 };

    /// The weight of a seat (right to call), which is its part of the first seat's weight.
    ghost weight: { Self.Seat → ℕ };

    ghost core_count: { Self → ℕ };

    ghost slot_count: { Self → ℕ };

    /// Creates a table of `cores` cores with `slots` thread slots each, and its first seat (right to call).
    ///
    /// All slots are free. The generation (count of ended threads) of each thread record begins at `first_generation`.
    fn new(
        alloc: Global,
        cores: u8,
        slots: u8,
        first_generation: u64,
    ) -> Result<(Self, Self::Seat), AllocError>
        requires some { 1 ≤ cores }
        requires cores { cores ≤ CORES }
        requires some_slots { 1 ≤ slots }
        requires slots { slots ≤ SLOTS }
        requires generation { first_generation ≤ LAST_GENERATION }
        ensures cores { IfOk result (λ made. Self.core_count made.0 ≡ cores) }
        ensures slots { IfOk result (λ made. Self.slot_count made.0 ≡ slots) }
        ensures sits { IfOk result (λ made. Self.sits made.0 made.1) }
        ensures idle { IfOk result (λ made. Self.idle made.0 made.1) }
        ensures weight { IfOk result (λ made. Self.weight made.1 ≡ whole) };

    /// Splits a seat (right to call) into two, each with half of its weight, rounded up for the first.
    ///
    /// If the weight is at most 1, both parts get weight 0. `seat` must have no unused claim and no taken thread.
    fn split<R: Wait>(&self, rt: &R, seat: Self::Seat) -> (Self::Seat, Self::Seat)
        requires seat { Self.sits self.now seat }
        requires idle { Self.idle self.now seat }
        ensures first { Self.sits self.now result.0 }
        ensures first_idle { Self.idle self.now result.0 }
        ensures second { Self.sits self.now result.1 }
        ensures second_idle { Self.idle self.now result.1 }
        ensures first_weight { Self.weight result.0 ≡ first_part (Self.weight seat) }
        ensures second_weight { Self.weight result.1 ≡ second_part (Self.weight seat) };

    /// Joins two seats (rights to call) into one, whose weight is the sum of their weights, but at most the whole.
    ///
    /// `seat` and `other` must have no unused claim and no taken thread.
    fn join_seats<R: Wait>(&self, rt: &R, seat: Self::Seat, other: Self::Seat) -> Self::Seat
        requires seat { Self.sits self.now seat }
        requires other { Self.sits self.now other }
        requires idle { Self.idle self.now seat }
        requires other_idle { Self.idle self.now other }
        ensures sits { Self.sits self.now result }
        ensures idle { Self.idle self.now result }
        ensures weight { Self.weight result ≡ joined (Self.weight seat) (Self.weight other) };

    /// Returns whether all other seats (rights to call) were joined into this one.
    fn is_whole(&self, seat: &Self::Seat) -> bool
        ensures { IsTrue result ↔ (Self.weight seat.now ≡ whole) };

    /// Returns the number of the seat's unused claims of slots, plus the number of threads that it holds.
    fn out(&self, seat: &Self::Seat) -> u32;
}
