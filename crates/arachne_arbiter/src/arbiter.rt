//! The arbiter of a run. Core 0's kernel thread uses it to close cores and open them again, as orders say.
ghost use Rattle.std.specs.Prelude.{◌≡◌, ℕ, ◌<◌, ◌≤◌, ◌==◌, ◌↔◌, length, if◌then◌else◌, IfOk, IsTrue, MatchBool, None, Some};
ghost use Rattle.arachne_core.specs.declared.layout.TheConstants.{CORES};
ghost use Rattle.arachne_policy.specs.Orders.{AreInOrder};
ghost use Rattle.arachne_contexts.specs.Out.{KeepsOut};
ghost use Rattle.arachne_arbiter.specs.KernelThreads.{parked_cores};

use crate::cores::Cores;
use crate::draining::Draining;
use crate::orders::{Effect, Orders};
use crate::parking::Parking;
use crate::slices::SliceCounts;
use arachne_contexts::{Contexts, Tagged};
use arachne_policy::CoreOrder;
use std::alloc::{AllocError, Global};
use std::marker::Model;
use std::sync::Wait;

/// Closes and opens cores of a table as orders say, and moves threads away from the cores that it has closed.
///
/// Only the kernel thread of core 0 has the arbiter. While it exists, nothing else may close or open these cores.
#[derive(Debug, Drop)]
pub struct Arbiter {
    orders: Orders,
    draining: Draining,
}

impl Model for Arbiter {
    ghost use Rattle.arachne_arbiter.specs.Orders.{Progress, AreDraining};

    ghost Value = { Progress };

    ghost view = { λ a. a.orders };

    ghost invariant = { λ a. AreDraining a.orders a.draining.waiting.items };
}

impl Arbiter {
    ghost use Rattle.arachne_arbiter.specs.Orders.{with_next, IsDue, IsNoneDue, HasAppliedDue};

    /// Creates an arbiter with `orders` to close or open cores, for a table of `cores` cores, all of which are open.
    pub fn new(alloc: Global, orders: Vec<CoreOrder>, cores: u8) -> Result<Arbiter, AllocError>
        requires orders { AreInOrder cores orders.items }
        requires cores { cores ≤ CORES }
        ensures { IfOk result (λ arbiter. arbiter ≡ record { list = orders.items; cores = cores; applied = 0 }) }
    {
        let orders = Orders::new(alloc, orders, cores)?;
        let draining = Draining::new(alloc, cores)?;
        Ok(Arbiter { orders, draining })
    }

    /// Returns the number of orders (to close or open a core) that the arbiter has carried out.
    pub fn applied(&self) -> usize
        ensures applied { result ≡ self.now.applied }
        ensures within { result ≤ length self.now.list }
    {
        self.orders.applied
    }

    /// Returns whether the arbiter was given any orders, carried out or not.
    #[inline(always)]
    pub fn has_any(&self) -> bool
        ensures { IsTrue result ↔ (0 < length self.now.list) }
    {
        self.orders.has_any()
    }

    /// Returns whether all orders were carried out.
    pub fn are_over(&self) -> bool
        ensures { IsTrue result ↔ (self.now.applied ≡ length self.now.list) }
    {
        self.orders.are_over()
    }

    /// Carries out the orders to close or open a core that are due now, and moves threads away from one closed core.
    ///
    /// Returns the number of all orders carried out so far, if this call has carried out any, and a bit for each core
    /// to which threads were moved. Successive calls go round the closed cores. A thread that nobody runs goes to the
    /// first other core that has room. A thread stays if it is running, is not yet in its slot, or has its core for
    /// itself.
    ///
    /// Core 0's kernel thread must call this before each slice (some steps of one thread), and repeatedly while it
    /// finds no thread to run. `slices` counts the slices that have ended.
    pub fn tend<H: Wait, T: Tagged, C: Contexts<T>>(
        &mut self,
        cores: &Cores<'_, H, T, C>,
        seat: &mut C::Seat,
        parking: &Parking,
        slices: &SliceCounts,
    ) -> (Option<usize>, u64)
        requires seat { C.sits cores.now.table.now seat.old }
        requires cores { self.old.cores ≡ cores.now.count }
        requires parking { parked_cores parking.now ≡ cores.now.count }
        ensures seat { C.sits cores.now.table.now seat.new }
        ensures weight { C.weight seat.new ≡ C.weight seat.old }
        ensures out { KeepsOut (C.has cores.now.table.now) seat.old seat.new }
        ensures progress { (ended : ℕ) × HasAppliedDue self.old self.new ended }
        ensures news { result.0 ≡ (if self.new.applied == self.old.applied then None else Some self.new.applied) }
    {
        let before = self.applied();
        if !self.orders.are_over() {
            self.apply_due(cores, seat, parking, slices.total());
        }
        let mut receivers = 0;
        self.draining.round(cores, seat, &mut receivers);
        let after = self.applied();
        if after == before {
            (None, receivers)
        } else {
            (Some(after), receivers)
        }
    }

    /// Carries out each order to close or open a core that is due after `ended` slices (some steps of one thread each).
    ///
    /// A release closes its core. A grant opens its core and unparks that core's kernel thread. A release of a closed
    /// core, or a grant of an open one, is counted as carried out, and changes nothing.
    pub fn apply_due<H: Wait, T: Tagged, C: Contexts<T>>(
        &mut self,
        cores: &Cores<'_, H, T, C>,
        seat: &mut C::Seat,
        parking: &Parking,
        ended: u64,
    )
        requires seat { C.sits cores.now.table.now seat.old }
        requires cores { self.old.cores ≡ cores.now.count }
        requires parking { parked_cores parking.now ≡ cores.now.count }
        ensures seat { C.sits cores.now.table.now seat.new }
        ensures weight { C.weight seat.new ≡ C.weight seat.old }
        ensures out { KeepsOut (C.has cores.now.table.now) seat.old seat.new }
        ensures progress { HasAppliedDue self.old self.new ended }
    {
        while self.apply_next(cores, seat, parking, ended) {}
    }

    /// Carries out the next order, if it is due after `ended` slices, and returns true if so.
    fn apply_next<H: Wait, T: Tagged, C: Contexts<T>>(
        &mut self,
        cores: &Cores<'_, H, T, C>,
        seat: &mut C::Seat,
        parking: &Parking,
        ended: u64,
    ) -> bool
        requires seat { C.sits cores.now.table.now seat.old }
        requires cores { self.old.cores ≡ cores.now.count }
        requires parking { parked_cores parking.now ≡ cores.now.count }
        ensures seat { C.sits cores.now.table.now seat.new }
        ensures weight { C.weight seat.new ≡ C.weight seat.old }
        ensures out { KeepsOut (C.has cores.now.table.now) seat.old seat.new }
        ensures due { MatchBool result (IsDue self.old ended) (IsNoneDue self.old ended) }
        ensures progress { self.new ≡ (if result then with_next self.old else self.old) }
    {
        let Some(effect) = self.orders.next_due(ended) else {
            return false;
        };
        match effect {
            Effect::Closes(core) => {
                cores.table.close_core(cores.rt, seat, core);
                self.draining.start(core);
            }
            Effect::Opens(core) => {
                // The core is opened before the unpark, since a kernel thread that wakes and finds its core still
                // closed parks again.
                cores.table.open_core(cores.rt, seat, core);
                self.draining.stop(core);
                parking.unpark(core);
            }
            Effect::Nothing => {}
        }
        true
    }
}
