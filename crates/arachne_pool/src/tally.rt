//! Counts of jobs that were spawned and that have ended: a worker's own, and those that all workers have reported.
ghost use Rattle.std.specs.Prelude.{◌≡◌, ◌+◌, ◌≤◌};

use crossbeam_utils::CachePadded;
use std::alloc::{AllocError, Global};
use std::sync::atomic::{AtomicU64, Ordering};

/// The number of jobs that were spawned, and of jobs that have ended. Each count saturates at 2^64 - 1.
#[derive(Clone, Copy, Debug, PartialEq, Eq)]
pub struct Tally {
    pub spawned: u64,
    pub ended: u64,
}

impl Tally {
    /// Returns the sums of both counts.
    pub(crate) fn plus(self, other: Tally) -> Tally
        ensures spawned { self.spawned + other.spawned ≤ u64.MAX → result.spawned ≡ self.spawned + other.spawned }
        ensures ended { self.ended + other.ended ≤ u64.MAX → result.ended ≡ self.ended + other.ended }
    {
        Tally {
            spawned: self.spawned.saturating_add(other.spawned),
            ended: self.ended.saturating_add(other.ended),
        }
    }
}

#[derive(Drop)]
struct CoreCounts {
    spawned: AtomicU64,
    ended: AtomicU64,
}

/// The numbers of jobs that all workers have spawned and ended. Each core has an entry, on a cache line of its own, and
/// the last entry is for workers without a core.
#[derive(Drop)]
pub(crate) struct Live {
    by_core: Vec<CachePadded<CoreCounts>>,
}

impl Live {
    pub(crate) fn new(alloc: Global, cores: u8) -> Result<Live, AllocError> {
        let mut by_core = Vec::new(alloc);
        for _ in 0..=cores {
            by_core.push(CachePadded::new(CoreCounts {
                spawned: AtomicU64::new(0),
                ended: AtomicU64::new(0),
            }))?;
        }
        Ok(Live { by_core })
    }

    /// Adds what a worker of `core` has not reported yet. A spawn must be added before another worker can run the job.
    pub(crate) fn add(&self, core: u8, unreported: Tally) {
        if let Some(own) = self.by_core.get(usize::from(core)).or(self.by_core.last()) {
            // Spawns are added first: `count` must not see the end of a job whose spawn it misses.
            if unreported.spawned != 0 {
                own.spawned.fetch_add(unreported.spawned, Ordering::SeqCst);
            }
            if unreported.ended != 0 {
                own.ended.fetch_add(unreported.ended, Ordering::SeqCst);
            }
        }
    }

    pub(crate) fn count(&self) -> u64 {
        // Ends are read first: a job that is spawned or ends between the two reads counts as living, so 0 is never too
        // early.
        let ended = self.by_core.iter().fold(
            0u64,
            |sum, counts| sum.wrapping_add(counts.ended.load(Ordering::SeqCst)),
        );
        let spawned = self.by_core.iter().fold(
            0u64,
            |sum, counts| sum.wrapping_add(counts.spawned.load(Ordering::SeqCst)),
        );
        spawned.wrapping_sub(ended)
    }
}
