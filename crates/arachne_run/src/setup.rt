//! The settings of a run, and their validation.
ghost use Rattle.std.specs.Prelude.{◌≡◌, None, Some, Err, IfErr, IsOk, vec_len};
ghost use Rattle.arachne_policy.specs.Orders.{AreInOrder};
ghost use Rattle.arachne_run.specs.declared.fault.RunFault.{RunFault};
ghost use Rattle.arachne_run.specs.Setups.{IsFirstOrderFault, IsSetupFault, refusal_of};

use crate::fault::RunFault;
use arachne_core::{CORES, SLOTS};
use arachne_policy::{CoreOrder, check_orders};

const MAX_QUANTUM: u64 = 10_000;

/// The settings of a run.
#[derive(Debug, Drop)]
pub struct Setup {
    /// The number of cores, 1 to 64.
    pub cores: u64,
    /// The number of thread slots of each core, 1 to 56.
    pub slots: u64,
    /// The greatest number of steps that a thread makes at a time, 1 to 10,000.
    pub quantum: u64,
    /// The orders that close cores and open them again while the program runs.
    pub orders: Vec<CoreOrder>,
}

impl Setup {
    /// Returns the first fault of these settings, such as another number of `choosers` than of cores.
    pub(crate) fn check(&self, choosers: usize) -> Result<(), RunFault>
        ensures refused { (fault : RunFault) → refusal_of self.now.cores self.now.quantum self.now.slots choosers ≡ Some fault → result ≡ Err fault }
        ensures accepted { IsOk result → refusal_of self.now.cores self.now.quantum self.now.slots choosers ≡ None }
        ensures orders { IsOk result → AreInOrder self.now.cores self.now.orders.items }
        ensures fault { IfErr result (IsSetupFault self.now.cores self.now.quantum self.now.slots choosers self.now.orders.items) }
        ensures order { refusal_of self.now.cores self.now.quantum self.now.slots choosers ≡ None → IfErr result (IsFirstOrderFault self.now.cores self.now.orders.items) }
    {
        if self.cores < 1 || self.cores > u64::from(CORES) {
            return Err(RunFault::Cores);
        }
        if self.quantum < 1 || self.quantum > MAX_QUANTUM {
            return Err(RunFault::Quantum);
        }
        if self.slots < 1 || self.slots > u64::from(SLOTS) {
            return Err(RunFault::Slots);
        }
        if choosers as u64 != self.cores {
            return Err(RunFault::Choosers);
        }
        match check_orders(self.orders.as_slice(), self.cores) {
            Ok(()) => Ok(()),
            Err(fault) => Err(RunFault::Orders(fault)),
        }
    }
}
