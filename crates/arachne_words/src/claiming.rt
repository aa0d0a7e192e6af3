//! Claims (reserves) a free thread slot, or a whole empty core, for a new thread, and frees claims.
ghost use Rattle.std.specs.Prelude.{◌≡◌, ◌<◌, true, false, slice_index_or, IfSome, IfNone, IfOk, IfErr};
ghost use Rattle.arachne_core.specs.Occupancy.{occupancy_word};
ghost use Rattle.arachne_rule.specs.Layout.{occ_index};
ghost use Rattle.arachne_rule.specs.declared.view.Kind.TheVariants as kind;
ghost use Rattle.arachne_words.specs.Seats.{HasClaim};
ghost use Rattle.arachne_words.specs.Calls.{HasNoPlace, IsLowestFree, sum_of, ClaimAnswer, ClaimAloneAnswer, GiveBackAnswer};
ghost use Rattle.arachne_words.specs.AfterSteps.{Frees, LosesTo, WinsClaim, WinsCore};

use crate::call_seat::CallSeat;
use crate::seat::{WordClaim, WordSeat};
use crate::steps::{Claim, ClaimAlone, Release};
use crate::table::WordContexts;
use arachne_contexts::{Claimed, Tagged};
use arachne_core::{COUNT_ONE, EXCLUSIVE, OccWord, Place, SLOTS};

/// The occupancy word of a core that one thread has for itself.
const WHOLE_CORE: u64 = EXCLUSIVE + COUNT_ONE + 1;

fn claim_sum(index: u8, alone: bool) -> u64
    requires { index < SLOTS }
    ensures { result ≡ sum_of alone index }
{
    let sum = (1 << u32::from(index)) + COUNT_ONE;
    if alone { sum + EXCLUSIVE } else { sum }
}

impl<T: Tagged + Drop> WordContexts<T> {
    /// Returns the lowest free slot of a core with the occupancy word `seen`, or `None` if the core is full or one
    /// thread has it for itself.
    pub(crate) fn free_index(&self, seen: OccWord) -> Option<u8>
        ensures some { IfSome result (IsLowestFree self.now.shape.places_per_core seen) }
        ensures none { IfNone result (HasNoPlace self.now.shape.places_per_core seen) }
    {
        let places = self.places_per_core;
        if seen.is_exclusive() {
            return None;
        }
        seen.lowest_free_below(places)
    }

    pub(crate) fn try_claim(
        &self,
        seat: &mut CallSeat<T>,
        place: Place,
        seen: OccWord,
    ) -> Result<(), u64>
        requires own { seat.old.table ≡ self.now.table }
        requires core { place.core < self.now.shape.cores }
        requires index { IsLowestFree self.now.shape.places_per_core seen place.index }
        requires opened { seen.closed ≡ false }
        ensures won { IfOk result (λ _. WinsClaim self.now seen place seat.old seat.new) }
        ensures lost { IfErr result (λ found. LosesTo kind.Claim (occ_index self.now.table.slots place.core) (occupancy_word seen) found seat.old seat.new) }
    {
        let shared = &self.table.shared;
        let old = seen.word();
        let new = seen.with_bit(place.index).word();
        let word = self.core_word(place.core);
        let found = shared.compare_exchange::<Claim>(&mut seat.seat, word, old, new);
        if found != old {
            return Err(found);
        }
        Ok(())
    }

    /// Tries once to claim the lowest free thread slot of a core.
    pub fn claim(&self, seat: &mut WordSeat<T>, core: u8) -> Claimed<WordClaim>
        requires own { seat.old.table ≡ self.now.table }
        requires core { core < self.now.shape.cores }
        ensures seat { (seat.new.table ≡ seat.old.table) × (seat.new.weight ≡ seat.old.weight) }
        ensures answer { ClaimAnswer self.now core seat.old.known result seat.new.known }
    {
        let _ = &self.places_per_core;
        let seen = self.see_core(&mut seat.at, core);
        if seen.is_closed() {
            return Claimed::Closed(seen.word());
        }
        let Some(index) = self.free_index(seen) else {
            return Claimed::Full(seen.word());
        };
        let place = Place { core, index };
        match self.try_claim(&mut seat.at, place, seen) {
            Ok(()) => {
                seat.out += 1;
                Claimed::Place(WordClaim {
                    place,
                    alone: false,
                })
            }
            Err(found) => Claimed::Lost(found),
        }
    }

    /// Claims a whole empty core, or returns its occupancy word as the error if it isn't 0.
    fn try_claim_alone(&self, seat: &mut CallSeat<T>, core: u8) -> Result<(), u64>
        requires own { seat.old.table ≡ self.now.table }
        requires core { core < self.now.shape.cores }
        ensures won { IfOk result (λ _. WinsCore self.now core seat.old seat.new) }
        ensures lost { IfErr result (λ found. LosesTo kind.Alone (occ_index self.now.table.slots core) 0 found seat.old seat.new) }
    {
        let shared = &self.table.shared;
        let word = self.core_word(core);
        let found = shared.compare_exchange::<ClaimAlone>(&mut seat.seat, word, 0, WHOLE_CORE);
        if found != 0 {
            return Err(found);
        }
        Ok(())
    }

    /// Tries once to claim a whole empty core for one thread, in slot 0.
    pub fn claim_alone(&self, seat: &mut WordSeat<T>, core: u8) -> Claimed<WordClaim>
        requires own { seat.old.table ≡ self.now.table }
        requires core { core < self.now.shape.cores }
        ensures seat { (seat.new.table ≡ seat.old.table) × (seat.new.weight ≡ seat.old.weight) }
        ensures answer { ClaimAloneAnswer self.now core seat.old.known result seat.new.known }
    {
        let _ = &self.places_per_core;
        let seen = self.see_core(&mut seat.at, core);
        if seen.is_closed() {
            return Claimed::Closed(seen.word());
        }
        if seen.word() != 0 {
            return Claimed::Full(seen.word());
        }
        match self.try_claim_alone(&mut seat.at, core) {
            Ok(()) => {
                seat.out += 1;
                Claimed::Place(WordClaim {
                    place: Place { core, index: 0 },
                    alone: true,
                })
            }
            Err(found) => Claimed::Lost(found),
        }
    }

    /// Frees a claimed slot, or a whole core if `alone` is true, by one atomic subtraction.
    pub(crate) fn release(&self, seat: &mut CallSeat<T>, place: Place, alone: bool)
        requires own { seat.old.table ≡ self.now.table }
        requires claim { HasClaim self.now seat.old.known (record { place = place; alone = alone }) }
        ensures { Frees self.now (record { place = place; alone = alone }) seat.old seat.new }
    {
        let _ = &self.places_per_core;
        let less = claim_sum(place.index, alone);
        let word = self.core_word(place.core);
        let shared = &self.table.shared;
        shared.fetch_sub::<Release>(&mut seat.seat, word, less);
    }

    /// Frees a claimed thread slot into which no thread was put.
    pub fn give_back(&self, seat: &mut WordSeat<T>, claim: WordClaim)
        requires own { seat.old.table ≡ self.now.table }
        requires claim { HasClaim self.now seat.old.known claim }
        ensures seat { (seat.new.table ≡ seat.old.table) × (seat.new.weight ≡ seat.old.weight) }
        ensures steps { GiveBackAnswer self.now claim seat.old.known seat.new.known }
    {
        let WordClaim { place, alone } = claim;
        self.release(&mut seat.at, place, alone);
        seat.out -= 1;
    }
}
