//! Reads which thread slots of each core are occupied, and which cores are closed.
ghost use Rattle.std.specs.Prelude.{◌≡◌, ◌<◌, ◌≤◌};
ghost use Rattle.arachne_core.specs.declared.layout.TheConstants.{CORES, SLOTS};
ghost use Rattle.arachne_contexts.specs.Out.{KeepsOut};

use arachne_contexts::{Contexts, Seats, Tagged};
use arachne_core::{CORES, OccWord};
use std::marker::PhantomData;
use std::sync::Wait;

/// A context table, which stores user threads, with its number of cores and of thread slots per core.
#[derive(Drop)]
pub struct Cores<'a, H, T, C: Seats> {
    pub rt: &'a H,
    pub table: &'a C,
    pub count: u8,
    pub slots: u8,
    /// The type of the threads' values in the table.
    pub of: PhantomData<T>,
    ghost counted: { C.core_count table.now ≡ count },
    ghost few: { count ≤ CORES },
    ghost placed: { C.slot_count table.now ≡ slots },
    ghost few_slots: { slots ≤ SLOTS },
}

impl<'a, H: Wait, T: Tagged, C: Contexts<T>> Cores<'a, H, T, C> {
    pub(crate) fn look(&self, seat: &mut C::Seat, core: u8) -> OccWord
        requires seat { C.sits self.now.table.now seat.old }
        requires core { core < self.now.count }
        ensures seat { C.sits self.now.table.now seat.new }
        ensures weight { C.weight seat.new ≡ C.weight seat.old }
        ensures out { KeepsOut (C.has self.now.table.now) seat.old seat.new }
    {
        let word = self.table.look(self.rt, seat, core);
        let Some(occupancy) = OccWord::from_word(word) else {
            unreachable!()
        };
        occupancy
    }
}
