//! Decides at each fork if the child may get a thread slot, and collects what threads add to ledgers (shared sums).
ghost use Rattle.std.specs.Prelude.{◌≡◌, ◌≤◌, ◌+◌, ◌%◌, ◌^◌, false, true, if◌then◌else◌, IsTrue};
ghost use Rattle.arachne_machine.specs.Tallying.{GainsAt};
ghost use Rattle.arachne_jobs.specs.Dues.{IsOfAnother, due_to};
ghost use Rattle.arachne_jobs.specs.declared.openings.TheConstants.{LARGE};

use crate::room::{Room, Tags};
use arachne_machine::{Placing, Tallying};
use arachne_program::Class;

/// An amount that a worker must still add to a ledger (a sum that threads share).
#[derive(Clone, Copy, Debug)]
pub struct Due {
    pub ledger: u64,
    /// The amount, modulo 2^64. If it is 0, the worker must add nothing.
    pub amount: u64,
}

impl Tallying for Due {
    ghost due_to = { due_to };

    /// Adds `amount` to the amount that is due to `ledger` (a shared sum). Returns false, and adds nothing, if an
    /// amount is still due to another ledger.
    #[inline(always)]
    fn take(&mut self, ledger: u64, amount: u64) -> bool
        ensures taken { result ≡ true → GainsAt (due_to self.old) ledger amount (due_to self.new) }
        ensures full { result ≡ false → self.new ≡ self.old }
        ensures another { result ≡ false → IsOfAnother self.old ledger }
    {
        if self.amount != 0 && self.ledger != ledger {
            return false;
        }
        self.ledger = ledger;
        self.amount = self.amount.wrapping_add(amount);
        true
    }
}

/// The data of a worker that its threads change while they run.
#[derive(Drop)]
pub struct Openings {
    /// The worker's unused tags (numbers for new threads).
    pub tags: Tags,
    /// The number of random words that the worker must still draw: one for each fork for which it has drawn none.
    pub draws: u64,
    /// True if the child that was forked last reduces at least `LARGE` numbers of a sweep (a parallel reduction).
    pub is_large: bool,
    /// The amount that the worker must still add to a ledger (a shared sum).
    pub due: Due,
}

/// A worker always tries to get a slot for a child whose part of a sweep (parallel reduction) is at least this long.
const LARGE: u64 = 1024;

impl Openings {
    pub fn new() -> Openings
        ensures { (result.tags.left ≡ 0) × (result.draws ≡ 0) × (result.is_large ≡ false) × (result.due.amount ≡ 0) }
    {
        Openings {
            tags: Tags { next: 0, left: 0 },
            draws: 0,
            is_large: false,
            due: Due {
                ledger: 0,
                amount: 0,
            },
        }
    }

    /// Counts a random word that the worker must draw later, unless the child may get a slot, for which one is drawn.
    #[inline(always)]
    fn owe_unless(&mut self, may: bool)
        ensures { self.new ≡ record self.old { draws = if may then self.old.draws else (self.old.draws + 1) % 2 ^ 64 } }
    {
        if !may {
            self.draws = self.draws.wrapping_add(1);
        }
    }
}

/// Decides at each fork if the child may get a thread slot or wait for one, or runs inside its parent's slot.
#[derive(Drop)]
pub(crate) struct ForkPlacing<'a> {
    pub(crate) room: &'a Room,
    pub(crate) openings: &'a mut Openings,
}

impl<'a> Placing for ForkPlacing<'a> {
    ghost use Rattle.std.specs.Prelude.{false};

    ghost gives_all = { false };

    #[inline(always)]
    fn is_any(&mut self, class: Class) -> bool
        ensures all { false ≡ true → IsTrue result }
        ensures exclusive { class ≡ Class.Exclusive → IsTrue result }
    {
        self.is_any_for(class, 0)
    }

    #[inline(always)]
    fn is_any_for(&mut self, class: Class, turns: u64) -> bool
        ensures all { false ≡ true → IsTrue result }
        ensures exclusive { class ≡ Class.Exclusive → IsTrue result }
        ensures large { LARGE ≤ turns → IsTrue result }
    {
        self.openings.is_large = turns >= LARGE;
        let may = self.openings.is_large
            || class == Class::Exclusive
            || self.room.has_free_place()
            || self.room.may_wait();
        self.openings.owe_unless(may);
        may
    }

    #[inline(always)]
    fn tag(&mut self) -> u64 {
        self.openings.tags.take(self.room)
    }
}
