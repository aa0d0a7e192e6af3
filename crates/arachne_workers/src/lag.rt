//! Counts the steps of a worker's threads between two checks of whether it must stop, or must open or close cores.
ghost use Rattle.std.specs.Prelude.{◌≡◌, ◌≤◌, ◌+◌, false, max};

use crate::dispatch::Dispatch;
use crate::shared::SharedWords;

/// Counts the steps of all threads that a worker runs: `unread` since it last read the stop word as clear, `untended`
/// since it last called `tend` for the orders to open or close cores, or found that the run has no orders.
///
/// Neither exceeds `most`, the largest quantum (steps per slice) so far. So before a slice the worker reads the stop
/// word and carries out orders by the calls of this type, which restart the counts.
#[derive(Drop)]
pub(crate) struct Lag {
    unread: u32,
    untended: u32,
    most: u32,
    ghost reads: { unread ≤ most },
    ghost tends: { untended ≤ most },
}

impl Lag {
    pub(crate) fn none() -> Lag
        ensures { (result.unread ≡ 0) × (result.untended ≡ 0) × (result.most ≡ 0) }
    {
        Lag {
            unread: 0,
            untended: 0,
            most: 0,
        }
    }

    /// Raises `most` to `quantum`, before a thread with that quantum runs.
    #[inline(always)]
    pub(crate) fn allow(&mut self, quantum: u32)
        ensures most { self.new.most ≡ max self.old.most quantum }
        ensures same { (self.new.unread ≡ self.old.unread) × (self.new.untended ≡ self.old.untended) }
    {
        self.most = self.most.max(quantum);
    }

    /// Adds steps that the current thread has made to both counts.
    #[inline(always)]
    pub(crate) fn add(&mut self, steps: u32)
        requires reads { self.old.unread + steps ≤ self.old.most }
        requires tends { self.old.untended + steps ≤ self.old.most }
        ensures counted { (self.new.unread ≡ self.old.unread + steps) × (self.new.untended ≡ self.old.untended + steps) }
        ensures most { self.new.most ≡ self.old.most }
    {
        self.unread += steps;
        self.untended += steps;
    }

    /// Reads the stop word; if it is clear, restarts the count of steps since the last read.
    #[inline(always)]
    pub(crate) fn is_stopped(&mut self, shared: &SharedWords) -> bool
        ensures read { result ≡ false → self.new.unread ≡ 0 }
        ensures same { (self.new.untended ≡ self.old.untended) × (self.new.most ≡ self.old.most) }
    {
        if shared.is_stopped() {
            return true;
        }
        self.unread = 0;
        false
    }

    /// Returns true if the run has orders, so that the caller must call `tend`. If not, restarts the count for orders.
    #[inline(always)]
    pub(crate) fn has_orders<D: Dispatch>(&mut self, dispatch: &D) -> bool
        ensures none { result ≡ false → self.new.untended ≡ 0 }
        ensures same { (self.new.unread ≡ self.old.unread) × (self.new.most ≡ self.old.most) }
    {
        if dispatch.has_orders() {
            return true;
        }
        self.untended = 0;
        false
    }

    /// Calls `Dispatch::tend`, and restarts the count of steps since the last such call.
    #[inline(always)]
    pub(crate) fn tend<D: Dispatch>(&mut self, dispatch: &mut D) -> (Option<usize>, u64)
        ensures dispatch { dispatch.new ≡ dispatch.old }
        ensures tended { self.new.untended ≡ 0 }
        ensures same { (self.new.unread ≡ self.old.unread) × (self.new.most ≡ self.old.most) }
    {
        self.untended = 0;
        dispatch.tend()
    }
}
