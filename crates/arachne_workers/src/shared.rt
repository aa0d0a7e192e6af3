//! The atomic words by which workers sleep, wake one another, park and stop.
ghost use Rattle.std.specs.Prelude.{◌≡◌, ◌↔◌, ◌<◌, IfOk, IsTrue};
ghost use Rattle.std.specs.Int.{bit_at};
ghost use Rattle.arachne_arbiter.specs.KernelThreads.{counted_cores, parked_cores};

use crate::hints::{Hints, SLEEPS, bit_of};
use arachne_arbiter::{Parking, SliceCounts};
use arachne_core::{CORES, FULL_MASK, Place};
use std::alloc::{AllocError, Global};
use std::marker::Model;
use std::sync::Wait;
use std::sync::atomic::{AtomicU64, Ordering};
use std::time::Duration;

/// The words that all workers share: one that stops them, the hints of ready threads (on which workers sleep), the
/// counts of ended slices, and the parkers by which the kernel threads of closed cores sleep.
#[derive(Drop)]
pub struct SharedWords {
    /// 1 if all workers must stop, which is never taken back, and otherwise 0.
    stop: AtomicU64,
    pub(crate) hints: Hints,
    slices: SliceCounts,
    parking: Parking,
}

// In contracts, a value of this type is its number of cores.
impl Model for SharedWords {
    ghost use Rattle.std.specs.Prelude.{◌≡◌, ℕ};
    ghost use Rattle.arachne_arbiter.specs.KernelThreads.{counted_cores, parked_cores};

    ghost Value = { ℕ };

    ghost view = { λ s. s.hints };

    ghost invariant = { λ s. (counted_cores s.slices ≡ s.hints) × (parked_cores s.parking ≡ s.hints) };
}

impl SharedWords {
    /// Creates the words for `cores` cores. At first no thread is ready, no slice has ended, and no worker sleeps.
    pub fn new(alloc: Global, cores: u8) -> Result<SharedWords, AllocError>
        ensures { IfOk result (λ shared. shared ≡ cores) }
    {
        Ok(SharedWords {
            stop: AtomicU64::new(0),
            hints: Hints::new(alloc, cores)?,
            slices: SliceCounts::new(alloc, cores)?,
            parking: Parking::new(alloc, cores)?,
        })
    }

    pub fn hints(&self) -> &Hints
        ensures { result.now ≡ self.now }
    {
        &self.hints
    }

    pub fn parking(&self) -> &Parking
        ensures { parked_cores result.now ≡ self.now }
    {
        &self.parking
    }

    pub fn slices(&self) -> &SliceCounts
        ensures { counted_cores result.now ≡ self.now }
    {
        &self.slices
    }

    /// Counts a slice that has ended on `core`.
    ///
    /// Only that core's own kernel thread may call this.
    #[inline(always)]
    pub(crate) fn count_slice(&self, core: u8) {
        if usize::from(core) < self.hints.cores() {
            self.slices.count(core);
        }
    }

    /// Records that the thread in slot `place` may be ready, and wakes the core's worker if it sleeps.
    pub fn hint(&self, place: Place) {
        self.hints.hint(place.core, bit_of(place.index));
    }

    /// Records that the threads of `cores` (one bit each) may be ready, and wakes these cores' workers that sleep.
    pub fn hint_cores(&self, cores: u64) {
        for core in 0..CORES {
            if has_core(cores, core) {
                self.hints.hint(core, FULL_MASK);
            }
        }
    }

    /// Stops all workers, including those that sleep or are parked.
    pub fn stop(&self) {
        // Stored before the wakes: a worker reads the word after it wakes up, and nobody wakes it for this stop again.
        self.stop.store(1, Ordering::SeqCst);
        for core in 0..CORES {
            self.hints.end_sleep(core);
        }
        self.parking.unpark_all();
    }

    #[inline(always)]
    pub fn is_stopped(&self) -> bool {
        self.stop.load(Ordering::SeqCst) != 0
    }

    /// Parks the kernel thread of `core` until another thread unparks it. Only that kernel thread may call this.
    pub(crate) fn park<H: Wait>(&self, rt: &H, core: u8) {
        if usize::from(core) < self.hints.cores() {
            self.parking.park(rt, core);
        }
    }

    /// Sleeps until a thread of `core` may be ready, `stop` is called or `spell` is over. Only that core's worker may
    /// call this. The wait ends at once if the core's word is no longer `SLEEPS`, as after a hint.
    pub(crate) fn sleep<H: Wait>(&self, rt: &H, core: u8, spell: Duration) {
        // The stop word is read last: a thread that sets it later sees that this worker sleeps, and wakes it.
        if !self.hints.is_about_to_sleep(core) || self.is_stopped() {
            return;
        }
        if let Some(word) = self.hints.word(core) {
            word.park_timeout(rt, SLEEPS as u32, spell);
        }
    }
}

#[inline(always)]
fn has_core(cores: u64, core: u8) -> bool
    requires { core < 64 }
    ensures { IsTrue result ↔ (bit_at cores core ≡ 1) }
{
    cores >> u32::from(core) & 1 == 1
}
