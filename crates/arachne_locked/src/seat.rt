//! One kernel thread's right to call a locked table, with the number by which the table knows it.
ghost use Rattle.std.specs.Prelude.{◌≡◌, ◌≢◌, ◌+◌, ◌<◌};
ghost use Rattle.arachne_locked.specs.Seats.{one_more, one_fewer};

use arachne_weights::Weight;
use std::marker::Model;

/// One kernel thread's right to call a table behind a lock. The table knows the seat by a number, its `carrier`.
///
/// `out` counts the seat's unused claims and held threads. A count of 2^32 - 1 no longer changes.
#[derive(Debug, Drop)]
pub struct LockedSeat {
    pub(crate) carrier: u32,
    pub(crate) weight: Weight,
    pub(crate) out: u32,
}

impl Model for LockedSeat {
    ghost use Rattle.arachne_locked.specs.Seats.{SeatView};

    ghost Value = { SeatView };

    ghost view = { λ s. record { carrier = s.carrier; weight = s.weight; out = s.out } };
}

impl LockedSeat {
    pub(crate) fn gain(&mut self)
        ensures { self.new ≡ record self.old { out = one_more self.old.out } }
    {
        if self.out < u32::MAX {
            self.out += 1;
        }
    }

    pub(crate) fn spend(&mut self)
        ensures { self.new ≡ record self.old { out = one_fewer self.old.out } }
    {
        if self.out < u32::MAX {
            self.out = self.out.saturating_sub(1);
        }
    }
}

/// Returns a number for a new seat (a right to call), which is split off seat number `other`. `last` is the number that
/// was last given to a seat, or 0, the first seat's.
///
/// The result is greater than `last`, until the numbers of 32 bits begin at 0 again, and differs from `other`.
pub(crate) fn next_carrier(last: u32, other: u32) -> u32
    ensures apart { result ≢ other }
    ensures fresh { last + 1 < u32.MAX → last < result }
{
    let next = last.wrapping_add(1);
    if next == other {
        return next.wrapping_add(1);
    }
    next
}
