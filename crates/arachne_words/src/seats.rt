//! Creates a table with its first seat, splits a seat into two, and joins two seats into one.
ghost use Rattle.std.specs.Prelude.{◌≡◌, ◌↔◌, ◌≤◌, [], IsTrue, IfOk, length};
ghost use Rattle.arachne_core.specs.declared.layout.TheConstants.{CORES, LAST_GENERATION, SLOTS};
ghost use Rattle.arachne_weights.specs.Weight.{whole, first_part, second_part, joined};
ghost use Rattle.arachne_rule.specs.Views.{blank, joined_known};
ghost use Rattle.arachne_words.specs.Seats.{HasNothingOut};

use crate::call_seat::CallSeat;
use crate::first_words::first_words;
use crate::seat::WordSeat;
use crate::steps::Deal;
use crate::table::WordContexts;
use arachne_contexts::Tagged;
use arachne_core::LAST_GENERATION;
use arachne_rule::Shape;
use arachne_weights::Weight;
use atomic_table::Table;
use std::alloc::{AllocError, Global};

impl<T: Tagged + Drop> WordContexts<T> {
    /// Creates a table, and its first seat (a kernel thread's right to call). Returns an error if memory is refused.
    ///
    /// The table has `cores` cores of `slots` thread slots each. All contexts (the records of user threads) are free,
    /// and begin with `first_generation` as their count of ended threads. Each seat has a *weight*, a part of one
    /// whole. A split halves the weight. Only a seat into which all others were joined has the whole weight.
    pub fn new(
        alloc: Global,
        cores: u8,
        slots: u8,
        first_generation: u64,
    ) -> Result<(WordContexts<T>, WordSeat<T>), AllocError>
        requires some { 1 ≤ cores }
        requires cores { cores ≤ CORES }
        requires some_slots { 1 ≤ slots }
        requires slots { slots ≤ SLOTS }
        requires generation { first_generation ≤ LAST_GENERATION }
        ensures contexts { IfOk result (λ made. made.0.shape ≡ record { cores = cores; places_per_core = slots; first = first_generation; last = LAST_GENERATION }) }
        ensures seat { IfOk result (λ made. made.1 ≡ record { table = made.0.table; weight = whole; known = blank }) }
    {
        let words = first_words(alloc, cores, slots, first_generation)?;
        let shape = Shape {
            cores,
            places_per_core: slots,
            first: first_generation,
            last: LAST_GENERATION,
        };
        let contexts = usize::from(cores) * usize::from(slots);
        let made = Table::vacant(alloc, words.as_slice(), contexts, &shape);
        let Shape {
            cores: _,
            places_per_core: _,
            first: _,
            last: _,
        } = shape;
        let (table, seat) = made?;
        let contexts = WordContexts {
            table,
            places_per_core: slots,
            last: LAST_GENERATION,
        };
        let seat = WordSeat {
            at: CallSeat { seat },
            weight: Weight::whole(),
            out: 0,
        };
        Ok((contexts, seat))
    }

    fn cut(&self, seat: &mut CallSeat<T>) -> CallSeat<T>
        requires own { seat.old.table ≡ self.now.table }
        ensures first { seat.new ≡ record seat.old { weight = first_part seat.old.weight } }
        ensures second { result ≡ record { table = seat.old.table; weight = second_part seat.old.weight; known = blank; slots = [] } }
    {
        let _ = &self.places_per_core;
        let other = self.table.shared.split_seat::<Deal>(&mut seat.seat);
        CallSeat { seat: other }
    }

    fn take_in(&self, seat: &mut CallSeat<T>, other: CallSeat<T>)
        requires own { (seat.old.table ≡ self.now.table) × (other.table ≡ self.now.table) }
        requires nothing_out { (other.known.carried ≡ []) × (other.slots ≡ []) }
        ensures { seat.new ≡ record seat.old { weight = joined seat.old.weight other.weight; known = joined_known seat.old.known other.known } }
    {
        let _ = &self.places_per_core;
        let CallSeat { seat: spent } = other;
        self.table.shared.join_seat::<Deal>(&mut seat.seat, spent);
    }

    /// Splits a seat (a right to call) into two, each with half of the weight (its part of one whole), rounded up for
    /// the first. The first keeps the record (for proofs) of `seat`. If the weight is 1 or 0, both seats get weight 0.
    pub fn split(&self, seat: WordSeat<T>) -> (WordSeat<T>, WordSeat<T>)
        requires own { seat.table ≡ self.now.table }
        requires nothing_out { HasNothingOut seat.known }
        ensures first { result.0 ≡ record seat { weight = first_part seat.weight } }
        ensures second { result.1 ≡ record { table = seat.table; weight = second_part seat.weight; known = blank } }
    {
        let WordSeat {
            mut at,
            weight,
            out: _,
        } = seat;
        let (first, second) = weight.split();
        let other = self.cut(&mut at);
        (
            WordSeat {
                at,
                weight: first,
                out: 0,
            },
            WordSeat {
                at: other,
                weight: second,
                out: 0,
            },
        )
    }

    /// Joins two seats (rights to call) into one, which has the records and the weights (parts of one whole) of both.
    pub fn join_seats(&self, seat: WordSeat<T>, other: WordSeat<T>) -> WordSeat<T>
        requires own { (seat.table ≡ self.now.table) × (other.table ≡ self.now.table) }
        requires nothing_out { HasNothingOut seat.known × HasNothingOut other.known }
        ensures { result ≡ record seat { weight = joined seat.weight other.weight; known = joined_known seat.known other.known } }
    {
        let WordSeat {
            mut at,
            weight,
            out: _,
        } = seat;
        let WordSeat {
            at: spent,
            weight: added,
            out: _,
        } = other;
        self.take_in(&mut at, spent);
        WordSeat {
            at,
            weight: weight.join(added),
            out: 0,
        }
    }

    /// Returns true if `seat` is the only seat (right to call), because all others were joined into it.
    pub fn is_whole(&self, seat: &WordSeat<T>) -> bool
        ensures { IsTrue result ↔ (seat.now.weight ≡ whole) }
    {
        seat.weight.is_whole()
    }

    /// Returns the number of the seat's unused claims of slots, plus the number of threads that it holds.
    pub fn out(&self, seat: &WordSeat<T>) -> u32
        ensures { result ≡ length seat.now.known.carried }
    {
        seat.out
    }
}
