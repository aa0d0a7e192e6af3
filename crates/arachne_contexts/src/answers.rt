//! The results of calls on a table of user threads. A number in a result is the value that the call read from an atomic
//! word, by which contracts show that the result is right.
ghost use Rattle.std.specs.Prelude.{◌≡◌};
ghost use Rattle.arachne_contexts.specs.Answers.{settled_claim, settled_wake};

use crate::held::Held;
use arachne_core::Rest;

/// The result of claiming (reserving) a thread slot of a core.
#[derive(Drop)]
pub enum Claimed<C> {
    /// The claimed thread slot. The caller must put a thread there or give the slot back.
    Place(C),
    /// The core has no free thread slot, belongs to one thread only, or isn't empty, as a claim of the whole core
    /// requires. The number is the core's occupancy word, with a bit for each occupied slot.
    Full(u64),
    /// The core takes no new threads. The number is the core's occupancy word, with a bit for each occupied slot.
    Closed(u64),
    /// Another kernel thread changed the core's occupancy word (a bit for each occupied thread slot) during the call.
    /// The number is the new occupancy word.
    Lost(u64),
}

impl<C> Claimed<C> {
    /// Returns `Some` with the claimed thread slot, or `Some(None)` if the core had no slot for this claim.
    ///
    /// Returns `None` if another kernel thread came first. The caller may try again.
    #[inline(always)]
    pub fn settled(self) -> Option<Option<C>>
        ensures { result ≡ settled_claim self }
    {
        match self {
            Claimed::Place(claim) => Some(Some(claim)),
            Claimed::Full(_) | Claimed::Closed(_) => Some(None),
            Claimed::Lost(_) => None,
        }
    }
}

/// The result of an attempt to take a ready thread, so that the caller may run it.
#[derive(Drop)]
pub enum Taken<T, H> {
    /// The caller holds the thread, and may run it.
    Run(Held<T, H>),
    /// No ready thread is at this thread slot. The number is the packed state (mark word) of the slot's thread record.
    NotReady(u64),
    /// The slot's thread record changed during the call. The number is the record's new packed state (mark word).
    Lost(u64),
}

/// The state in which `put_back` has left a thread.
#[derive(Clone, Copy, Debug, PartialEq, Eq)]
pub enum Rested {
    AsAsked,
    /// The thread is ready, although the caller put it back as blocked, since it was woken while the caller held it.
    WokenMeanwhile,
}

impl Rested {
    /// Returns the state of a thread that was put back as `asked`: that state, or ready if the thread was woken before.
    #[inline(always)]
    pub fn or(self, asked: Rest) -> Rest
        ensures as_asked { self ≡ Rested.AsAsked → result ≡ asked }
        ensures woken { self ≡ Rested.WokenMeanwhile → result ≡ Rest.Ready }
    {
        match self {
            Rested::AsAsked => asked,
            Rested::WokenMeanwhile => Rest::Ready,
        }
    }
}

/// The result of waking a thread.
#[derive(Clone, Copy, Debug, PartialEq, Eq)]
pub enum Woken {
    /// The thread was woken. A blocked thread is ready now. A running thread will be ready when it is put back.
    Woken,
    /// The thread needs no wake, as it is ready or already woken. The number is the thread's packed state (mark word).
    Already(u64),
    /// No thread has this id, or the thread has ended.
    Gone,
    /// The thread's state changed during the call. The number is the new packed state (mark word).
    Lost(u64),
}

impl Woken {
    /// Returns whether `wake` has woken the thread, or `None` if the caller must call it again.
    #[inline(always)]
    pub fn settled(self) -> Option<bool>
        ensures { result ≡ settled_wake self }
    {
        match self {
            Woken::Woken => Some(true),
            Woken::Already(_) | Woken::Gone => Some(false),
            Woken::Lost(_) => None,
        }
    }
}

/// The result of moving a thread to another core.
#[derive(Clone, Copy, Debug, PartialEq, Eq)]
pub enum Moved {
    Moved,
    /// The target core has no free thread slot, is closed, or belongs to one thread only. The number is the core's
    /// occupancy word, with a bit for each occupied slot.
    NoRoom(u64),
    /// There is no thread at the thread slot.
    Unposted,
    /// The thread wasn't moved, since a kernel thread runs it.
    Running,
    /// The thread wasn't moved, since it has its core for itself.
    Alone,
    /// The thread, its slot or the target core changed during the call. The number is the changed word's new value.
    Lost(u64),
}
