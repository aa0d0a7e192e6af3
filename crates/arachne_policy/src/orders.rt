//! Orders that give cores to the runtime and take them back, and the check of a list of orders.
ghost use Rattle.std.specs.Prelude.{◌≡◌, ◌↔◌, IsOk, IfErr};
ghost use Rattle.arachne_policy.specs.Orders.{order_fault, IsFirstFault, AreInOrder};

use thiserror::Error;

/// The kind of an order: to open or to close a core.
#[derive(Clone, Copy, Debug, PartialEq, Eq)]
pub enum OrderKind {
    /// The core is given to the runtime, which opens it.
    Grant,
    /// The core is taken from the runtime, which closes it.
    Release,
}

/// An order to give a core to the runtime or to take the core back. The order is due after `after` slices (some steps
/// of one thread each) have ended on all cores together.
#[derive(Clone, Copy, Debug, PartialEq, Eq)]
pub struct CoreOrder {
    pub after: u64,
    pub kind: OrderKind,
    pub core: u64,
}

/// The reason why an order makes a list of orders invalid.
#[derive(Clone, Copy, Debug, PartialEq, Eq, Error)]
pub enum OrderFaultKind {
    #[error("no such core")]
    NoSuchCore,
    #[error("core 0 is never released")]
    ReleasesCoreZero,
    #[error("it is due before the order that precedes it")]
    AfterFalls,
}

/// The first faulty order of a list, by its index from 0, and its fault.
#[derive(Clone, Copy, Debug, PartialEq, Eq, Error)]
#[error("order {index}: {kind}")]
pub struct OrderFault {
    pub index: usize,
    pub kind: OrderFaultKind,
}

impl CoreOrder {
    /// Returns the fault of this order, if it has one. The order before it is due after `previous` slices.
    fn fault(&self, cores: u64, previous: u64) -> Option<OrderFaultKind>
        ensures { result ≡ order_fault cores previous self.now }
    {
        if self.core >= cores {
            Some(OrderFaultKind::NoSuchCore)
        } else if self.kind == OrderKind::Release && self.core == 0 {
            Some(OrderFaultKind::ReleasesCoreZero)
        } else if self.after < previous {
            Some(OrderFaultKind::AfterFalls)
        } else {
            None
        }
    }
}

/// Checks that a list of orders is valid on a machine of `cores` cores.
///
/// Each order must name one of these cores, must not release core 0, and must not be due before the previous order.
/// Returns the first faulty order as an error, with the first of its faults in the order of `OrderFaultKind`.
pub fn check_orders(orders: &[CoreOrder], cores: u64) -> Result<(), OrderFault>
    ensures accepts { IsOk result ↔ AreInOrder cores orders.now }
    ensures first { IfErr result (IsFirstFault cores orders.now) }
{
    let mut previous = 0;
    for (index, order) in orders.iter().enumerate() {
        if let Some(kind) = order.fault(cores, previous) {
            return Err(OrderFault { index, kind });
        }
        previous = order.after;
    }
    Ok(())
}
