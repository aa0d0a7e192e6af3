//! One atomic word for each core, which says in which slots threads may be ready, and if the core's worker sleeps.
ghost use Rattle.std.specs.Prelude.{◌≡◌, ◌↔◌, ◌<◌, ◌≤◌, ◌*◌, ◌/◌, ◌%◌, ◌^◌, IfOk, IsSome, IsTrue};
ghost use Rattle.arachne_core.specs.declared.layout.TheConstants.{SLOTS};

use arachne_core::SLOTS;
use crossbeam_utils::CachePadded;
use std::alloc::{AllocError, Global};
use std::marker::Model;
use std::sync::atomic::{AtomicU64, Ordering};

/// The bit in a core's word that is set while its worker sleeps.
///
/// The worker waits on the low 32 bits of the word (by a futex), so this bit must be one of them.
pub(crate) const SLEEPS: u64 = 1;

/// In a core's word, the bit of slot 0 is bit 1, and so on, since bit 0 is `SLEEPS`.
const INDEX_SHIFT: u32 = 1;

/// Returns a mask with the bit of slot `index`, or 0 if no core has such a slot.
pub(crate) fn bit_of(index: u8) -> u64
    ensures there { index < SLOTS → result ≡ 2 ^ index }
    ensures none { SLOTS ≤ index → result ≡ 0 }
{
    if index < SLOTS {
        1 << u32::from(index)
    } else {
        0
    }
}

#[inline(always)]
fn hint_of(indexes: u64) -> u64
    ensures { result ≡ indexes * 2 % 2 ^ 64 }
{
    indexes << INDEX_SHIFT
}

#[inline(always)]
fn indexes_in(word: u64) -> u64
    ensures { result ≡ word / 2 }
{
    word >> INDEX_SHIFT
}

#[inline(always)]
fn says_sleeps(word: u64) -> bool
    ensures { IsTrue result ↔ (word % 2 ≡ 1) }
{
    word & SLEEPS != 0
}

/// A word for each core: a bit for each slot in which a thread may be ready, and a bit for a sleeping worker.
///
/// A slot's bit is only a hint: the table decides which threads are ready, and a scan of all occupied slots also finds
/// ready threads whose bit is not set.
#[derive(Drop)]
pub struct Hints {
    words: Vec<CachePadded<AtomicU64>>,
}

// In contracts, a value of this type is its number of cores.
impl Model for Hints {
    ghost use Rattle.std.specs.Prelude.{ℕ, vec_len};

    ghost Value = { ℕ };

    ghost view = { λ h. vec_len h.words };
}

impl Hints {
    /// Creates words for `cores` cores. At first no bit is set.
    pub fn new(alloc: Global, cores: u8) -> Result<Hints, AllocError>
        ensures { IfOk result (λ hints. hints ≡ cores) }
    {
        let mut words = Vec::with_capacity(alloc, usize::from(cores))?;
        for _ in 0..cores {
            words.push(CachePadded::new(AtomicU64::new(0)))?;
        }
        Ok(Hints { words })
    }

    pub fn cores(&self) -> usize
        ensures { result ≡ self.now }
    {
        self.words.len()
    }

    /// Records that the threads in the slots `indexes` of `core` (one bit each) may be ready, and wakes the core's
    /// worker if it sleeps.
    #[inline(always)]
    pub fn hint(&self, core: u8, indexes: u64) {
        if let Some(word) = self.word(core)
            && says_sleeps(word.fetch_or(hint_of(indexes), Ordering::SeqCst))
        {
            self.end_sleep(core);
        }
    }

    /// Clears the word of `core`, and returns the slots' bits that were set.
    ///
    /// Also clears the bit for a sleeping worker. If no bit is set, only reads the word, which costs less.
    pub(crate) fn take(&self, core: u8) -> u64 {
        match self.word(core) {
            Some(word) if word.load(Ordering::SeqCst) != 0 => {
                indexes_in(word.swap(0, Ordering::SeqCst))
            }
            _ => 0,
        }
    }

    /// Returns true if any bit of the word of `core` is set.
    pub fn is_any(&self, core: u8) -> bool {
        self.now(core) != 0
    }

    /// Returns true if the worker of `core` sleeps, or has not called `take` since its sleep timed out.
    pub fn is_asleep(&self, core: u8) -> bool {
        says_sleeps(self.now(core))
    }

    /// Returns the value of the word of `core`, or 0 if there is no such core.
    fn now(&self, core: u8) -> u64 {
        match self.word(core) {
            Some(word) => word.load(Ordering::SeqCst),
            None => 0,
        }
    }

    /// Records that the worker of `core` is about to sleep, and returns true.
    ///
    /// If a bit of the core's word is set, changes nothing and returns false.
    pub fn is_about_to_sleep(&self, core: u8) -> bool {
        match self.word(core) {
            // One compare-exchange: a hint that is set before keeps the worker awake, and a later caller of `hint` sees
            // that the worker sleeps.
            Some(word) => word
                .compare_exchange(0, SLEEPS, Ordering::SeqCst, Ordering::SeqCst)
                .is_ok(),
            None => false,
        }
    }

    /// Clears the bit that says that the worker of `core` sleeps, and wakes the worker if it does.
    pub(crate) fn end_sleep(&self, core: u8) {
        if let Some(word) = self.word(core) {
            // Clears the bit first, so that a worker that is only about to sleep finds the word changed, and doesn't
            // sleep.
            word.fetch_and(!SLEEPS, Ordering::SeqCst);
            word.wake_one();
        }
    }

    /// Returns the word of `core`, on whose low 32 bits the core's worker sleeps, or `None` if there is no such core.
    pub fn word(&self, core: u8) -> Option<&AtomicU64>
        ensures { IsSome result ↔ (core < self.now) }
    {
        match self.words.get(usize::from(core)) {
            Some(word) => Some(word),
            None => None,
        }
    }
}
