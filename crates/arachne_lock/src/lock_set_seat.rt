//! One kernel thread's right to call a set of locks.
use crate::guarded_lock::GuardedLock;
use crate::view::KnownLocks;
use atomic_table::Seat;
use std::marker::Model;

/// One kernel thread's right (*seat*) to call a set of locks. The value takes no memory.
///
/// A seat may be used, split and joined only with the locks that created it. Contracts keep a log of each seat.
#[derive(Drop)]
pub struct LockSetSeat {
    pub(crate) seat: Seat<GuardedLock, KnownLocks>,
}

// Contracts describe a seat by its table and its log.
impl Model for LockSetSeat {
    ghost use Rattle.std.specs.Prelude.{◌≡◌};
    ghost use Rattle.arachne_lock.specs.Views.{SeatView};
    ghost use Rattle.arachne_lock.specs.Steps.{idle};

    ghost Value = { SeatView };

    ghost view = { λ s. record { table = s.seat.table_id; log = s.seat.me.0.log } };

    ghost invariant = { λ s. s.seat.me ≡ idle s.seat.me.0.log };
}
