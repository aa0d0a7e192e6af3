//! A thread that a seat holds, and the traits by which a claim or a handle returns its place and its thread's id.
ghost use Rattle.std.specs.Prelude.{◌≡◌};
ghost use Rattle.arachne_core.specs.declared.place.Place.{Place};
ghost use Rattle.arachne_core.specs.declared.thread_id.ThreadId.{ThreadId};

use arachne_core::{Place, ThreadId};

/// A claim of a thread slot, or the handle of a thread in a slot.
pub trait Placed {
    ghost place_of: { Self → Place };

    /// Returns the thread slot: a core, and an index there.
    fn place(&self) -> Place
        ensures { result ≡ place_of self.now };
}

/// The handle of a thread in a table.
pub trait Identified: Placed {
    ghost id_of: { Self → ThreadId };

    fn id(&self) -> ThreadId
        ensures { result ≡ id_of self.now };
}

/// A thread that a kernel thread has taken from the table, to run it.
///
/// The caller may change the value, but not its tag (the thread's number in the table).
#[derive(Drop)]
pub struct Held<T, H> {
    pub value: T,
    /// The thread's handle, which must stay with the value with which the thread was taken.
    pub hold: H,
}

impl<T, H: Identified> Held<T, H> {
    pub fn id(&self) -> ThreadId
        ensures { result ≡ H.id_of self.now.hold }
    {
        self.hold.id()
    }

    /// Returns the thread slot from which the thread was taken.
    pub fn place(&self) -> Place
        ensures { result ≡ H.place_of self.now.hold }
    {
        self.hold.place()
    }
}
