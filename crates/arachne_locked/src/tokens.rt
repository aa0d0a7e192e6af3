//! A seat's claim of a thread slot, and its handle of a thread that it has taken and not yet put back.
use arachne_contexts::{Identified, Placed};
use arachne_core::{Place, ThreadId};

/// A thread slot that a seat (a kernel thread's right to call the table) has claimed for a new thread.
#[derive(Debug, Drop)]
pub struct LockedClaim {
    pub(crate) context: u32,
    pub(crate) place: Place,
}

/// The handle of a thread that a seat (a kernel thread's right to call the table) has taken and not yet put back.
#[derive(Debug, Drop)]
pub struct LockedHold {
    pub(crate) id: ThreadId,
    pub(crate) place: Place,
}

impl Placed for LockedClaim {
    ghost place_of = { λ claim. claim.place };

    fn place(&self) -> Place {
        self.place
    }
}

impl Placed for LockedHold {
    ghost place_of = { λ hold. hold.place };

    fn place(&self) -> Place {
        self.place
    }
}

impl Identified for LockedHold {
    ghost id_of = { λ hold. hold.id };

    fn id(&self) -> ThreadId {
        self.id
    }
}
