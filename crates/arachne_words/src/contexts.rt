//! Implements the traits of context tables for the table on atomic words.
//!
//! Each method calls the inherent method of the same name. No call waits, and only `new` and `close` allocate memory.
ghost use Rattle.std.specs.Prelude.{◌≡◌, ◌≢◌, ◌*◌, ◌-◌, ◌<◌, ◌≤◌, ◌↔◌, ◌^◌, IfOk, IfErr, IsOk, IsTrue, bit_and, bit_or, length};
ghost use Rattle.arachne_core.specs.declared.layout.TheConstants.{CORE_BITS, CORES, LAST_GENERATION, SLOTS};
ghost use Rattle.arachne_core.specs.Occupancy.{IsOccupancyWord};
ghost use Rattle.arachne_core.specs.Marked.{IsMarkWord};
ghost use Rattle.arachne_core.specs.World.{Thread};
ghost use Rattle.arachne_weights.specs.Weight.{whole, first_part, second_part, joined};
ghost use Rattle.arachne_contexts.specs.Answers.{ClaimsOn, ClaimsWhole, TakesAt, RestsAs, WakesAs, MovesAs, IsByContext, tagged_threads};
ghost use Rattle.arachne_contexts.specs.Out.{Claim as a_claim, Thread as a_thread, HasOut, KeepsOut, GetsClaim, GetsThread, Spends};
ghost use Rattle.arachne_contexts.specs.declared.answers.Woken.TheVariants as woken;
ghost use Rattle.arachne_rule.specs.declared.view.Kind.TheVariants as kind;
ghost use Rattle.arachne_rule.specs.Layout.{occ_index};
ghost use Rattle.arachne_rule.specs.Plays.{HasEnded};
ghost use Rattle.arachne_rule.specs.Views.{blank, joined_known, noted};
ghost use Rattle.arachne_words.specs.Calls.{looked, ClaimAnswer, ClaimAloneAnswer, TakeAnswer, RestAnswer, HasFinished, WakeAnswer, DrainAnswer, GiveBackAnswer, PostAnswer};
ghost use Rattle.arachne_words.specs.Moves.{MoveAnswer};
ghost use Rattle.arachne_words.specs.Out.{AreAllLeft, IsOutWith};
ghost use Rattle.arachne_words.specs.Seats.{HasNothingOut};
ghost use Rattle.arachne_words.specs.Swapped.{swapped-out};

use crate::seat::{WordClaim, WordHold, WordSeat};
use crate::table::WordContexts;
use arachne_contexts::{Claimed, Contexts, Held, Moved, Rested, Seats, Tagged, Taken, Woken};
use arachne_core::{Place, Rest, ThreadId};
use std::alloc::{AllocError, Global};
use std::sync::Wait;

impl<T: Tagged + Drop + Send> Seats for WordContexts<T> {
    type Seat = WordSeat<T>;

    ghost sits = { λ table seat. seat.table ≡ table.table };

    ghost idle = { λ table seat. HasNothingOut seat.known };

    ghost weight = { λ seat. seat.weight };

    ghost core_count = { λ table. table.shape.cores };

    ghost slot_count = { λ table. table.shape.places_per_core };

    fn new(
        alloc: Global,
        cores: u8,
        slots: u8,
        first_generation: u64,
    ) -> Result<(WordContexts<T>, WordSeat<T>), AllocError>
        requires some { 1 ≤ cores }
        requires cores { cores ≤ CORES }
        requires some_slots { 1 ≤ slots }
        requires slots { slots ≤ SLOTS }
        requires generation { first_generation ≤ LAST_GENERATION }
        ensures contexts { IfOk result (λ made. made.0.shape ≡ record { cores = cores; places_per_core = slots; first = first_generation; last = LAST_GENERATION }) }
        ensures seat { IfOk result (λ made. made.1 ≡ record { table = made.0.table; weight = whole; known = blank }) }
    {
        WordContexts::new(alloc, cores, slots, first_generation)
    }

    fn split<R: Wait>(&self, rt: &R, seat: WordSeat<T>) -> (WordSeat<T>, WordSeat<T>)
        requires seat { seat.table ≡ self.now.table }
        requires idle { HasNothingOut seat.known }
        ensures first { result.0 ≡ record seat { weight = first_part seat.weight } }
        ensures second { result.1 ≡ record { table = seat.table; weight = second_part seat.weight; known = blank } }
    {
        let _ = rt;
        WordContexts::split(self, seat)
    }

    fn join_seats<R: Wait>(&self, rt: &R, seat: WordSeat<T>, other: WordSeat<T>) -> WordSeat<T>
        requires seat { seat.table ≡ self.now.table }
        requires other { other.table ≡ self.now.table }
        requires idle { HasNothingOut seat.known }
        requires other_idle { HasNothingOut other.known }
        ensures { result ≡ record seat { weight = joined seat.weight other.weight; known = joined_known seat.known other.known } }
    {
        let _ = rt;
        WordContexts::join_seats(self, seat, other)
    }

    fn is_whole(&self, seat: &WordSeat<T>) -> bool {
        WordContexts::is_whole(self, seat)
    }

    fn out(&self, seat: &WordSeat<T>) -> u32
        ensures { result ≡ length seat.now.known.carried }
    {
        WordContexts::out(self, seat)
    }
}

impl<T: Tagged + Drop + Send> Contexts<T> for WordContexts<T> {
    type Claim = WordClaim;

    type Hold = WordHold;

    ghost has = { IsOutWith };

    ghost settles = { λ table seat left. AreAllLeft seat.known left };

    fn glance<R: Wait>(&self, rt: &R, core: u8) -> u64
        requires core { core < self.now.shape.cores }
    {
        let _ = rt;
        WordContexts::glance(self, core)
    }

    fn look<R: Wait>(&self, rt: &R, seat: &mut WordSeat<T>, core: u8) -> u64
        requires seat { seat.old.table ≡ self.now.table }
        requires core { core < self.now.shape.cores }
        ensures seat { seat.new.table ≡ self.now.table }
        ensures weight { seat.new.weight ≡ seat.old.weight }
        ensures out { KeepsOut (IsOutWith self.now) seat.old seat.new }
        ensures word { IsOccupancyWord result }
        ensures steps { seat.new ≡ record seat.old { known = looked (occ_index self.now.table.slots core) result seat.old.known } }
    {
        let _ = rt;
        WordContexts::look(self, seat, core)
    }

    fn look_mark<R: Wait>(&self, rt: &R, seat: &mut WordSeat<T>, context: u32) -> u64
        requires seat { seat.old.table ≡ self.now.table }
        requires context { context < self.now.shape.cores * self.now.shape.places_per_core }
        ensures seat { seat.new.table ≡ self.now.table }
        ensures weight { seat.new.weight ≡ seat.old.weight }
        ensures out { KeepsOut (IsOutWith self.now) seat.old seat.new }
        ensures word { IsMarkWord CORE_BITS result }
        ensures steps { seat.new ≡ record seat.old { known = looked context result seat.old.known } }
    {
        let _ = rt;
        let _ = &self.places_per_core;
        WordContexts::look_mark(self, seat, context)
    }

    fn claim<R: Wait>(
        &self,
        rt: &R,
        seat: &mut WordSeat<T>,
        core: u8,
    ) -> Result<Claimed<WordClaim>, AllocError>
        requires seat { seat.old.table ≡ self.now.table }
        requires core { core < self.now.shape.cores }
        ensures seat { seat.new.table ≡ self.now.table }
        ensures weight { seat.new.weight ≡ seat.old.weight }
        ensures out { GetsClaim (IsOutWith self.now) seat.old seat.new result }
        ensures answer { IfOk result (ClaimsOn self.now.shape.places_per_core (λ claim. claim.place) core) }
        ensures ok { IsOk result }
        ensures steps { IfOk result (λ claimed. ClaimAnswer self.now core seat.old.known claimed seat.new.known) }
    {
        let _ = rt;
        let _ = &self.places_per_core;
        Ok(WordContexts::claim(self, seat, core))
    }

    fn claim_alone<R: Wait>(
        &self,
        rt: &R,
        seat: &mut WordSeat<T>,
        core: u8,
    ) -> Result<Claimed<WordClaim>, AllocError>
        requires seat { seat.old.table ≡ self.now.table }
        requires core { core < self.now.shape.cores }
        ensures seat { seat.new.table ≡ self.now.table }
        ensures weight { seat.new.weight ≡ seat.old.weight }
        ensures out { GetsClaim (IsOutWith self.now) seat.old seat.new result }
        ensures answer { IfOk result (ClaimsWhole (λ claim. claim.place) core) }
        ensures ok { IsOk result }
        ensures steps { IfOk result (λ claimed. ClaimAloneAnswer self.now core seat.old.known claimed seat.new.known) }
    {
        let _ = rt;
        let _ = &self.places_per_core;
        Ok(WordContexts::claim_alone(self, seat, core))
    }

    fn give_back<R: Wait>(
        &self,
        rt: &R,
        seat: &mut WordSeat<T>,
        claim: WordClaim,
    ) -> Result<(), WordClaim>
        requires seat { seat.old.table ≡ self.now.table }
        requires out { HasOut (IsOutWith self.now) (a_claim claim) seat.old }
        ensures seat { seat.new.table ≡ self.now.table }
        ensures weight { seat.new.weight ≡ seat.old.weight }
        ensures out { Spends (IsOutWith self.now) (a_claim claim) seat.old seat.new result }
        ensures ok { IsOk result }
        ensures steps { GiveBackAnswer self.now claim seat.old.known seat.new.known }
    {
        let _ = rt;
        WordContexts::give_back(self, seat, claim);
        Ok(())
    }

    fn post<R: Wait>(
        &self,
        rt: &R,
        seat: &mut WordSeat<T>,
        claim: WordClaim,
        value: T,
    ) -> Result<ThreadId, (WordClaim, T)>
        requires seat { seat.old.table ≡ self.now.table }
        requires out { HasOut (IsOutWith self.now) (a_claim claim) seat.old }
        ensures seat { seat.new.table ≡ self.now.table }
        ensures weight { seat.new.weight ≡ seat.old.weight }
        ensures out { Spends (IsOutWith self.now) (a_claim claim) seat.old seat.new result }
        ensures ok { IsOk result }
        ensures posted { IfOk result (λ id. PostAnswer self.now seat.old.known claim (T.tag_of value) id seat.new.known) }
    {
        let _ = rt;
        Ok(WordContexts::post(self, seat, claim, value))
    }

    fn take<R: Wait>(
        &self,
        rt: &R,
        seat: &mut WordSeat<T>,
        core: u8,
        index: u8,
    ) -> Taken<T, WordHold>
        requires seat { seat.old.table ≡ self.now.table }
        requires core { core < self.now.shape.cores }
        requires index { index < self.now.shape.places_per_core }
        ensures seat { seat.new.table ≡ self.now.table }
        ensures weight { seat.new.weight ≡ seat.old.weight }
        ensures out { GetsThread (IsOutWith self.now) T.tag_of seat.old seat.new result }
        ensures answer { TakesAt (λ hold. hold.place) (record { core = core; index = index }) result }
        ensures steps { TakeAnswer T.tag_of self.now (record { core = core; index = index }) seat.old.known result seat.new.known }
    {
        let _ = rt;
        let _ = &self.places_per_core;
        WordContexts::take(self, seat, core, index)
    }

    fn put_back<R: Wait>(
        &self,
        rt: &R,
        seat: &mut WordSeat<T>,
        held: Held<T, WordHold>,
        rest: Rest,
    ) -> Result<Rested, Held<T, WordHold>>
        requires seat { seat.old.table ≡ self.now.table }
        requires out { HasOut (IsOutWith self.now) (a_thread held.hold (T.tag_of held.value)) seat.old }
        ensures seat { seat.new.table ≡ self.now.table }
        ensures weight { seat.new.weight ≡ seat.old.weight }
        ensures out { Spends (IsOutWith self.now) (a_thread held.hold (T.tag_of held.value)) seat.old seat.new result }
        ensures answer { IfOk result (RestsAs rest) }
        ensures ok { IsOk result }
        ensures steps { IfOk result (λ rested. RestAnswer self.now held.hold (T.tag_of held.value) seat.old.known rest rested seat.new.known) }
    {
        let _ = rt;
        Ok(WordContexts::put_back(self, seat, held, rest))
    }

    fn finish<R: Wait>(
        &self,
        rt: &R,
        seat: &mut WordSeat<T>,
        held: Held<T, WordHold>,
    ) -> Result<T, Held<T, WordHold>>
        requires seat { seat.old.table ≡ self.now.table }
        requires out { HasOut (IsOutWith self.now) (a_thread held.hold (T.tag_of held.value)) seat.old }
        ensures seat { seat.new.table ≡ self.now.table }
        ensures weight { seat.new.weight ≡ seat.old.weight }
        ensures out { Spends (IsOutWith self.now) (a_thread held.hold (T.tag_of held.value)) seat.old seat.new result }
        ensures value { IfOk result (λ value. value ≡ held.value) }
        ensures ok { IsOk result }
        ensures finished { HasFinished self.now seat.old.known held.hold (T.tag_of held.value) seat.new.known }
    {
        let _ = rt;
        Ok(WordContexts::finish(self, seat, held))
    }

    fn wake<R: Wait>(&self, rt: &R, seat: &mut WordSeat<T>, id: ThreadId) -> Woken
        requires seat { seat.old.table ≡ self.now.table }
        ensures seat { seat.new.table ≡ self.now.table }
        ensures weight { seat.new.weight ≡ seat.old.weight }
        ensures out { KeepsOut (IsOutWith self.now) seat.old seat.new }
        ensures answer { WakesAs id result }
        ensures steps { WakeAnswer self.now id seat.old.known result seat.new.known }
        ensures ended { (t : Thread) → t.0 ≡ id → HasEnded seat.old.known t → result ≡ woken.Gone }
    {
        let _ = rt;
        WordContexts::wake(self, seat, id)
    }

    fn close_core<R: Wait>(&self, rt: &R, seat: &mut WordSeat<T>, core: u8) -> u64
        requires seat { seat.old.table ≡ self.now.table }
        requires core { core < self.now.shape.cores }
        ensures seat { seat.new.table ≡ self.now.table }
        ensures weight { seat.new.weight ≡ seat.old.weight }
        ensures out { KeepsOut (IsOutWith self.now) seat.old seat.new }
        ensures word { IsOccupancyWord result }
        ensures steps { seat.new ≡ record seat.old { known = noted kind.Close (occ_index self.now.table.slots core) result (bit_or result (2 ^ 62)) seat.old.known } }
    {
        let _ = rt;
        WordContexts::close_core(self, seat, core)
    }

    fn open_core<R: Wait>(&self, rt: &R, seat: &mut WordSeat<T>, core: u8) -> u64
        requires seat { seat.old.table ≡ self.now.table }
        requires core { core < self.now.shape.cores }
        ensures seat { seat.new.table ≡ self.now.table }
        ensures weight { seat.new.weight ≡ seat.old.weight }
        ensures out { KeepsOut (IsOutWith self.now) seat.old seat.new }
        ensures word { IsOccupancyWord result }
        ensures steps { seat.new ≡ record seat.old { known = noted kind.Open (occ_index self.now.table.slots core) result (bit_and result (2 ^ 64 - 1 - 2 ^ 62)) seat.old.known } }
    {
        let _ = rt;
        WordContexts::open_core(self, seat, core)
    }

    fn is_drained<R: Wait>(&self, rt: &R, seat: &mut WordSeat<T>, core: u8) -> bool
        requires seat { seat.old.table ≡ self.now.table }
        requires core { core < self.now.shape.cores }
        ensures seat { seat.new.table ≡ self.now.table }
        ensures weight { seat.new.weight ≡ seat.old.weight }
        ensures out { KeepsOut (IsOutWith self.now) seat.old seat.new }
        ensures steps { DrainAnswer self.now core seat.old.known result seat.new.known }
    {
        let _ = rt;
        WordContexts::is_drained(self, seat, core)
    }

    fn move_one<R: Wait>(&self, rt: &R, seat: &mut WordSeat<T>, place: Place, to: u8) -> Moved
        requires seat { seat.old.table ≡ self.now.table }
        requires core { place.core < self.now.shape.cores }
        requires index { place.index < self.now.shape.places_per_core }
        requires target { to < self.now.shape.cores }
        requires apart { to ≢ place.core }
        ensures seat { seat.new.table ≡ self.now.table }
        ensures weight { seat.new.weight ≡ seat.old.weight }
        ensures out { KeepsOut (IsOutWith self.now) seat.old seat.new }
        ensures answer { MovesAs self.now.shape.places_per_core result }
        ensures carried { seat.new.known.carried ≡ seat.old.known.carried }
        ensures steps { MoveAnswer self.now place to seat.old.known result seat.new.known }
    {
        let _ = rt;
        let _ = &self.places_per_core;
        WordContexts::move_one(self, seat, place, to)
    }

    fn close<R: Wait>(
        self,
        rt: &R,
        alloc: Global,
        seat: WordSeat<T>,
    ) -> Result<Vec<(ThreadId, T)>, (WordContexts<T>, WordSeat<T>)>
        requires seat { seat.table ≡ self.table }
        requires all { seat.weight ≡ whole }
        requires idle { HasNothingOut seat.known }
        ensures settled { IfOk result (λ rest. AreAllLeft seat.known (tagged_threads T.tag_of rest.items)) }
        ensures order { IfOk result (λ rest. IsByContext rest.items) }
        ensures handed_back { IfErr result (λ back. back ≡ (self, seat)) }
    {
        let _ = rt;
        WordContexts::close(self, alloc, seat)
    }

    ghost nothing_out = { λ table seat idle. idle };

    ghost is_idle = { λ table seat none. none };

    ghost swapped = { λ table seat first second outs has. swapped-out table seat.known.carried first second outs has };
}
