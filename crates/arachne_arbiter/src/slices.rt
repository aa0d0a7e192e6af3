//! Counts the ended slices for each core, so that an order can be due after a number of slices. A slice is some steps
//! of one thread.
ghost use Rattle.std.specs.Prelude.{◌≡◌, ◌<◌, IfOk};
ghost use Rattle.arachne_arbiter.specs.KernelThreads.{counted_cores};

use crossbeam_utils::CachePadded;
use std::alloc::{AllocError, Global};
use std::sync::atomic::{AtomicU64, Ordering};

/// For each core, the number of slices (some steps of one thread each) that have ended there.
#[derive(Drop)]
pub struct SliceCounts {
    counts: Vec<CachePadded<AtomicU64>>,
}

impl SliceCounts {
    pub fn new(alloc: Global, cores: u8) -> Result<SliceCounts, AllocError>
        ensures { IfOk result (λ counts. counted_cores counts ≡ cores) }
    {
        let mut counts = Vec::with_capacity(alloc, usize::from(cores))?;
        for _ in 0..cores {
            counts.push(CachePadded::new(AtomicU64::new(0)))?;
        }
        Ok(SliceCounts { counts })
    }

    /// Adds one to the count of `core`, up to 2^64 - 1.
    ///
    /// Only the kernel thread of `core` may call this. If two calls overlap, one of them can be lost.
    pub fn count(&self, core: u8)
        requires { core < counted_cores self.now }
    {
        let count = &self.counts[usize::from(core)];
        let ended = count.load(Ordering::SeqCst);
        count.store(ended.saturating_add(1), Ordering::SeqCst);
    }

    /// Returns the number of slices (some steps of one thread each) that have ended on all cores, up to 2^64 - 1.
    pub fn total(&self) -> u64 {
        let mut total: u64 = 0;
        for count in &self.counts {
            total = total.saturating_add(count.load(Ordering::SeqCst));
        }
        total
    }
}
