//! The table, the indexes of its words, and the calls that read a word.
ghost use Rattle.std.specs.Prelude.{◌≡◌, ◌+◌, ◌*◌, ◌<◌, true};
ghost use Rattle.arachne_core.specs.declared.layout.TheConstants.{CORE_BITS};
ghost use Rattle.arachne_core.specs.Occupancy.{IsOccupancyWord, occupancy_of, occupancy_word};
ghost use Rattle.arachne_core.specs.Marked.{IsMarkWord, mark_word, marked_of};
ghost use Rattle.arachne_core.specs.World.{Thread};
ghost use Rattle.arachne_rule.specs.declared.view.Carried.{Carried};
ghost use Rattle.arachne_rule.specs.Layout.{occ_index, name_index};
ghost use Rattle.arachne_rule.specs.Plays.{Carries, SaysCarried, HasEnded, IsGone};
ghost use Rattle.arachne_words.specs.Sizes.{IsPlaceIn};
ghost use Rattle.arachne_words.specs.Calls.{looked, learned};

use crate::call_seat::CallSeat;
use crate::seat::WordSeat;
use crate::steps::{ContextRule, LearnName, LookCore, LookMark};
use arachne_contexts::Tagged;
use arachne_core::{MarkWord, OccWord, Place};
use arachne_rule::{BLOCK, NAMES, OCCUPANCY, Shape, View};
use atomic_table::Table;
use std::alloc::Global;
use std::marker::Model;

/// A context table on atomic words. Kernel threads call the table through seats (rights to call), and no call waits.
///
/// A *context* is the record of one user thread; its generation is the number of threads that have ended there.
/// Contracts see the table's shape: the numbers of cores and slots, and a context's first and last generation.
// In methods of this type, the line `let _ = &self.places_per_core;` gives the prover the invariant of this type
// (`IsSized`), with the table's sizes.
#[derive(Drop)]
pub struct WordContexts<T: Tagged + Drop> {
    pub(crate) table: Table<Option<T>, View, Shape, ContextRule, Global>,
    pub(crate) places_per_core: u8,
    pub(crate) last: u64,
}

impl<T: Tagged + Drop> Model for WordContexts<T> {
    ghost use Rattle.arachne_rule.specs.Layout.{Contexts};
    ghost use Rattle.arachne_words.specs.Sizes.{IsSized};

    ghost Value = { Contexts };

    ghost view = { λ c. record { table = c.table.shared.table_id; shape = c.table.shared.key } };

    ghost invariant = { λ c. IsSized (record { table = c.table.shared.table_id; shape = c.table.shared.key }) c.places_per_core c.last };
}

impl<T: Tagged + Drop> WordContexts<T> {
    pub(crate) fn core_word(&self, core: u8) -> usize
        requires { core < self.now.shape.cores }
        ensures { result ≡ occ_index self.now.table.slots core }
    {
        let _ = &self.places_per_core;
        self.table.slot_count() + BLOCK * usize::from(core) + OCCUPANCY
    }

    pub(crate) fn name_word(&self, place: Place) -> usize
        requires { IsPlaceIn self.now.shape place }
        ensures { result ≡ name_index self.now.table.slots place }
    {
        let _ = &self.places_per_core;
        self.table.slot_count() + BLOCK * usize::from(place.core) + NAMES + usize::from(place.index)
    }

    pub(crate) fn see_core(&self, seat: &mut CallSeat<T>, core: u8) -> OccWord
        requires own { seat.old.table ≡ self.now.table }
        requires core { core < self.now.shape.cores }
        ensures seat { seat.new ≡ record seat.old { known = looked (occ_index self.now.table.slots core) (occupancy_word result) seat.old.known } }
        ensures read { occupancy_of (occupancy_word result) ≡ result }
    {
        let shared = &self.table.shared;
        let word = shared.load::<LookCore>(&mut seat.seat, self.core_word(core));
        match OccWord::from_word(word) {
            Some(seen) => seen,
            None => unreachable!(),
        }
    }

    pub(crate) fn see_mark(&self, seat: &mut CallSeat<T>, context: usize) -> MarkWord
        requires own { seat.old.table ≡ self.now.table }
        requires context { context < self.now.table.slots }
        ensures seat { seat.new ≡ record seat.old { known = looked context (mark_word CORE_BITS result) seat.old.known } }
        ensures read { marked_of CORE_BITS (mark_word CORE_BITS result) ≡ result }
        ensures carried { (c : Carried) → c.context ≡ context → Carries seat.old.known c → SaysCarried CORE_BITS c (mark_word CORE_BITS result) }
        ensures gone { (t : Thread) → t.0.context ≡ context → HasEnded seat.old.known t → IsGone CORE_BITS t.0 (mark_word CORE_BITS result) }
    {
        let shared = &self.table.shared;
        let word = shared.load::<LookMark>(&mut seat.seat, context);
        match MarkWord::from_word(word) {
            Some(seen) => seen,
            None => unreachable!(),
        }
    }

    pub(crate) fn see_name(&self, seat: &mut CallSeat<T>, place: Place) -> usize
        requires own { seat.old.table ≡ self.now.table }
        requires place { IsPlaceIn self.now.shape place }
        ensures context { result < self.now.table.slots }
        ensures seat { seat.new ≡ record seat.old { known = learned (name_index self.now.table.slots place) result seat.old.known } }
        ensures carried { (c : Carried) → c.context < self.now.table.slots → Carries seat.old.known c → c.named ≡ true → c.place ≡ place → result ≡ c.context }
    {
        let shared = &self.table.shared;
        shared.load::<LearnName>(&mut seat.seat, self.name_word(place)) as usize
    }

    /// Returns the occupancy word of a core (a bit for each occupied slot), without a seat (a right to call). The
    /// contract promises nothing about the word.
    pub fn glance(&self, core: u8) -> u64
        requires core { core < self.now.shape.cores }
    {
        self.table.shared.peek(self.core_word(core))
    }

    /// Returns the occupancy word of a core, with a bit for each occupied thread slot.
    pub fn look(&self, seat: &mut WordSeat<T>, core: u8) -> u64
        requires own { seat.old.table ≡ self.now.table }
        requires core { core < self.now.shape.cores }
        ensures word { IsOccupancyWord result }
        ensures seat { seat.new ≡ record seat.old { known = looked (occ_index self.now.table.slots core) result seat.old.known } }
    {
        self.see_core(&mut seat.at, core).word()
    }

    /// Returns the mark word of a context (record of a thread), which packs the state, the slot and the generation.
    pub fn look_mark(&self, seat: &mut WordSeat<T>, context: u32) -> u64
        requires own { seat.old.table ≡ self.now.table }
        requires context { context < self.now.table.slots }
        ensures word { IsMarkWord CORE_BITS result }
        ensures seat { seat.new ≡ record seat.old { known = looked context result seat.old.known } }
    {
        self.see_mark(&mut seat.at, context as usize).word()
    }
}
