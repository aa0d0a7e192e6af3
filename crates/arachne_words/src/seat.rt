//! The values by which a kernel thread calls the table: seats, claims of slots, and handles of threads.
ghost use Rattle.std.specs.Prelude.{◌≡◌};

use crate::call_seat::CallSeat;
use arachne_contexts::{Identified, Placed};
use arachne_core::{Place, ThreadId};
use arachne_weights::Weight;
use std::marker::Model;

/// A seat, which is one kernel thread's right to call a table.
///
/// Contracts see the seat's unused claims of slots, the threads that it holds, and the operations that it has made.
#[derive(Drop)]
pub struct WordSeat<T> {
    pub(crate) at: CallSeat<T>,
    pub(crate) weight: Weight,
    pub(crate) out: u32,
}

impl<T> Model for WordSeat<T> {
    ghost use Rattle.std.specs.Prelude.{◌≡◌, []};
    ghost use Rattle.arachne_words.specs.Seats.{SeatView, AreOut};

    ghost Value = { SeatView };

    ghost view = { λ s. record { table = s.at.table; weight = s.weight; known = s.at.known } };

    ghost invariant = { λ s. (s.at.weight ≡ s.weight) × (s.at.slots ≡ []) × AreOut s.at.table.slots s.out s.at.known };
}

/// A claimed thread slot of a core. The caller must put a thread there or give the claim back.
#[derive(Drop)]
pub struct WordClaim {
    pub(crate) place: Place,
    pub(crate) alone: bool,
}

impl Model for WordClaim {
    ghost use Rattle.arachne_words.specs.Seats.{ClaimView};

    ghost Value = { ClaimView };

    ghost view = { λ c. record { place = c.place; alone = c.alone } };
}

impl Placed for WordClaim {
    ghost place_of = { λ c. c.place };

    fn place(&self) -> Place {
        self.place
    }
}

/// The handle of a thread that a seat (a kernel thread's right to call the table) has taken and not yet put back.
#[derive(Drop)]
pub struct WordHold {
    pub(crate) id: ThreadId,
    pub(crate) place: Place,
    pub(crate) alone: bool,
}

impl Model for WordHold {
    ghost use Rattle.std.specs.Prelude.{◌≤◌, ◌<◌};
    ghost use Rattle.arachne_core.specs.declared.layout.TheConstants.{CORES, SLOTS, LAST_GENERATION};
    ghost use Rattle.arachne_words.specs.Seats.{HoldView};

    ghost Value = { HoldView };

    ghost view = { λ h. record { id = h.id; place = h.place; alone = h.alone } };

    ghost invariant = { λ h. (h.id.generation ≤ LAST_GENERATION) × (h.place.core < CORES) × (h.place.index < SLOTS) };
}

impl Placed for WordHold {
    ghost place_of = { λ h. h.place };

    fn place(&self) -> Place {
        self.place
    }
}

impl Identified for WordHold {
    ghost id_of = { λ h. h.id };

    fn id(&self) -> ThreadId {
        self.id
    }
}
