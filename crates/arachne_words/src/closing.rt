//! Closes a core, so that no thread slot can be claimed on it, and opens it again.
ghost use Rattle.std.specs.Prelude.{◌≡◌, ◌-◌, ◌^◌, ◌<◌, bit_and, bit_or};
ghost use Rattle.arachne_core.specs.Occupancy.{IsOccupancyWord};
ghost use Rattle.arachne_rule.specs.declared.view.Kind.TheVariants as kind;
ghost use Rattle.arachne_rule.specs.Layout.{occ_index};
ghost use Rattle.arachne_rule.specs.Views.{noted};
ghost use Rattle.arachne_words.specs.Calls.{DrainAnswer};

use crate::call_seat::CallSeat;
use crate::seat::WordSeat;
use crate::steps::{Close, Open};
use crate::table::WordContexts;
use arachne_contexts::Tagged;

const CLOSED: u64 = 1 << 62;

impl<T: Tagged + Drop> WordContexts<T> {
    fn set_closed(&self, seat: &mut CallSeat<T>, core: u8) -> u64
        requires own { seat.old.table ≡ self.now.table }
        requires core { core < self.now.shape.cores }
        ensures word { IsOccupancyWord result }
        ensures seat { seat.new ≡ record seat.old { known = noted kind.Close (occ_index self.now.table.slots core) result (bit_or result (2 ^ 62)) seat.old.known } }
    {
        let shared = &self.table.shared;
        shared.fetch_or::<Close>(&mut seat.seat, self.core_word(core), CLOSED)
    }

    fn clear_closed(&self, seat: &mut CallSeat<T>, core: u8) -> u64
        requires own { seat.old.table ≡ self.now.table }
        requires core { core < self.now.shape.cores }
        ensures word { IsOccupancyWord result }
        ensures seat { seat.new ≡ record seat.old { known = noted kind.Open (occ_index self.now.table.slots core) result (bit_and result (2 ^ 64 - 1 - 2 ^ 62)) seat.old.known } }
    {
        let shared = &self.table.shared;
        shared.fetch_and::<Open>(&mut seat.seat, self.core_word(core), !CLOSED)
    }

    /// Closes a core, so that no slot can be claimed. Returns its old occupancy word (a bit for each occupied slot).
    pub fn close_core(&self, seat: &mut WordSeat<T>, core: u8) -> u64
        requires own { seat.old.table ≡ self.now.table }
        requires core { core < self.now.shape.cores }
        ensures word { IsOccupancyWord result }
        ensures seat { seat.new ≡ record seat.old { known = noted kind.Close (occ_index self.now.table.slots core) result (bit_or result (2 ^ 62)) seat.old.known } }
    {
        self.set_closed(&mut seat.at, core)
    }

    /// Opens a core again. Returns its old occupancy word (a bit for each occupied slot).
    pub fn open_core(&self, seat: &mut WordSeat<T>, core: u8) -> u64
        requires own { seat.old.table ≡ self.now.table }
        requires core { core < self.now.shape.cores }
        ensures word { IsOccupancyWord result }
        ensures seat { seat.new ≡ record seat.old { known = noted kind.Open (occ_index self.now.table.slots core) result (bit_and result (2 ^ 64 - 1 - 2 ^ 62)) seat.old.known } }
    {
        self.clear_closed(&mut seat.at, core)
    }

    /// Returns true if a core is closed and none of its thread slots is occupied.
    pub fn is_drained(&self, seat: &mut WordSeat<T>, core: u8) -> bool
        requires own { seat.old.table ≡ self.now.table }
        requires core { core < self.now.shape.cores }
        ensures seat { (seat.new.table ≡ seat.old.table) × (seat.new.weight ≡ seat.old.weight) }
        ensures answer { DrainAnswer self.now core seat.old.known result seat.new.known }
    {
        let seen = self.see_core(&mut seat.at, core);
        seen.is_closed() && seen.is_empty()
    }
}
