//! The log of a run: the events that its cores have reported to the run's observer (`Gate`), in one order for all
//! cores.
use arachne_core::ThreadId;
use arachne_workers::WorkerEvent;
use boxcar::slot::{OnceSlot, SlotRule};
use boxcar::tag::Tag;
use std::alloc::{AllocError, Global};
use std::sync::atomic::{AtomicU64, Ordering};

#[derive(Clone, Copy, Debug, PartialEq, Eq)]
pub enum What {
    /// The core is about to begin the slice with this number, counted from 0.
    Slice(u64),
    /// The core's worker has taken this thread. The second field is true if the thread has the core to itself.
    Turn(ThreadId, bool),
    Told(WorkerEvent),
}

#[derive(Clone, Copy, Debug, PartialEq, Eq)]
pub struct Entry {
    pub core: u8,
    pub what: What,
}

pub struct AnyEvent;

impl SlotRule<Entry> for AnyEvent {
    ghost holds = { λ _ _. Unit {0} };
}

/// A log of the events that the cores of a run report to the run's observer (`Gate`).
///
/// All cores write to the log at the same time. Events for which there is no room are counted but not stored.
#[derive(Drop)]
pub struct Log {
    entries: Vec<OnceSlot<Entry, AnyEvent>>,
    count: AtomicU64,
}

impl Log {
    /// Returns an empty log with room for `room` entries.
    pub fn new(alloc: Global, room: usize) -> Result<Log, AllocError> {
        let tag = Tag::empty();
        let mut entries = Vec::with_capacity(alloc, room)?;
        for _ in 0..room {
            entries.push(OnceSlot::new(&tag))?;
        }
        Ok(Log {
            entries,
            count: AtomicU64::new(0),
        })
    }

    /// Returns the number of events, including those that were not stored for want of room.
    pub fn count(&self) -> u64 {
        self.count.load(Ordering::SeqCst)
    }

    /// Returns true if the log had room for all events.
    pub fn is_whole(&self) -> bool {
        self.count() <= self.entries.len() as u64
    }

    fn note(&self, core: u8, what: What) {
        let at = self.count.fetch_add(1, Ordering::SeqCst);
        if let Some(entry) = self.entries.get(at as usize) {
            let _ = entry.set(Entry { core, what });
        }
    }

    pub fn slice(&self, core: u8, nth: u64) {
        self.note(core, What::Slice(nth));
    }

    pub fn turn(&self, core: u8, id: ThreadId, is_alone: bool) {
        self.note(core, What::Turn(id, is_alone));
    }

    pub fn told(&self, core: u8, event: WorkerEvent) {
        self.note(core, What::Told(event));
    }

    /// Returns the entry with the number `at`, counted from 0, if the entry was stored.
    pub fn entry(&self, at: usize) -> Option<Entry> {
        self.entries.get(at)?.get().copied()
    }
}
