//! One kernel thread's right to call a sleep lock.
ghost use Rattle.std.specs.Prelude.{◌↔◌, IsTrue};
ghost use Rattle.arachne_sleep.specs.Views.{IsWhole};

use crate::guarded_state::GuardedState;
use crate::view::View;
use arachne_weights::Weight;
use atomic_table::Seat;
use std::marker::Model;

/// One kernel thread's right (*seat*) to call one sleep lock. Contracts keep a log of the calls through each seat.
///
/// A seat may be used, split or joined only with the lock that made it. If it's dropped, the lock can never be closed.
#[derive(Drop)]
pub struct LockSeat {
    pub(crate) seat: Seat<GuardedState, View>,
    pub(crate) weight: Weight,
}

// Contracts describe a seat by its table, its weight and its log.
impl Model for LockSeat {
    ghost use Rattle.std.specs.Prelude.{◌≡◌};
    ghost use Rattle.arachne_sleep.specs.Views.{SeatView};
    ghost use Rattle.arachne_sleep.specs.Steps.{idle};

    ghost Value = { SeatView };

    ghost view = { λ s. record { table = s.seat.table_id; weight = s.weight; log = s.seat.me.0.known.log } };

    ghost invariant = { λ s. s.seat.me ≡ idle s.weight s.seat.me.0.known.log };
}

impl LockSeat {
    /// Returns true if this is the lock's only seat, since all others were joined into it.
    pub fn is_whole(&self) -> bool
        ensures { IsTrue result ↔ IsWhole self.now }
    {
        self.weight.is_whole()
    }
}
