//! The facts about one thread that the entries of a log read so far have shown.
ghost use Rattle.std.specs.Prelude.{◌≡◌};
ghost use Rattle.arachne_judge.specs.Breaks.{has_ended, is_in_hand};

use arachne_core::ThreadId;
use arachne_workers::SliceEnd;

/// The facts that the log has shown about the last thread of a context.
#[derive(Clone, Copy)]
pub(crate) struct ThreadFacts {
    pub(crate) id: ThreadId,
    /// The core on which a worker last took the thread.
    pub(crate) core: u8,
    pub(crate) turned: usize,
    /// The core whose worker has reported, since the thread was last taken, that it has moved the thread there or will
    /// run it.
    pub(crate) pulled: Option<u8>,
    /// The core on which the thread's slot is, if the worker of another core runs the thread.
    pub(crate) home: Option<u8>,
    pub(crate) is_in_slice: bool,
    pub(crate) end: SliceEnd,
    pub(crate) woken: u64,
    /// The number of the core's last entry before the core parked, plus 1; or 0 if the core has not parked since the
    /// thread's last turn. The thread must have left between that entry and the park.
    pub(crate) left: usize,
}

impl ThreadFacts {
    pub(crate) fn new(id: ThreadId, core: u8, at: usize) -> ThreadFacts {
        ThreadFacts {
            id,
            core,
            turned: at,
            pulled: None,
            home: None,
            is_in_slice: false,
            end: SliceEnd::GoesOn,
            woken: 0,
            left: 0,
        }
    }

    /// Returns the core on which the thread's slot was when a worker last took the thread.
    pub(crate) fn place(&self) -> u8 {
        self.home.unwrap_or(self.core)
    }

    pub(crate) fn has_ended(&self) -> bool
        ensures { result ≡ has_ended self.now.end }
    {
        matches!(self.end, SliceEnd::Ended)
    }

    /// Returns true if a slice of the thread may begin on `core`.
    pub(crate) fn is_in_hand(&self, core: u8) -> bool
        ensures { result ≡ is_in_hand core self.now }
    {
        self.core == core && !self.is_in_slice && !self.has_ended()
    }
}
