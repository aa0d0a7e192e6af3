//! Decides whether a kernel thread that finds no work may yield its processor.
ghost use Rattle.std.specs.Prelude.{◌≡◌, ◌-◌, ◌↔◌, ◌⊎◌, ℕ, IsTrue};
ghost use Rattle.arachne_arbiter.specs.declared.backoff.TheConstants.{ROUNDS_WITHOUT_YIELDS};

use std::marker::Model;
use std::thread;
use std::time::{Clock, Duration, Instant};

/// The greatest length of a short yield of the processor, in microseconds.
const AT_ONCE: u64 = 2000;

/// The number of times that a kernel thread must find work after a long yield before it may yield again.
const ROUNDS_WITHOUT_YIELDS: u32 = 4096;

/// Decides whether a kernel thread that waits may yield its processor.
///
/// On an idle machine, a yield returns at once. If other processes want the processor, a yield gives away a whole time
/// slice, and the user threads of this kernel thread wait all that time. So each yield is timed. After a long yield, a
/// kernel thread that must wait doesn't yield for a while, but spins for a short time and then sleeps.
#[derive(Drop)]
pub struct Backoff {
    rounds: u32,
}

impl Model for Backoff {
    ghost Value = { ℕ };

    ghost view = { λ p. p.rounds };
}

impl Backoff {
    /// Creates a `Backoff` that allows yields from the beginning.
    pub fn new() -> Backoff
        ensures { result ≡ 0 }
    {
        Backoff { rounds: 0 }
    }

    /// Returns whether the kernel thread may yield its processor now.
    pub fn may_yield(&self) -> bool
        ensures { IsTrue result ↔ (self.now ≡ 0) }
    {
        self.rounds == 0
    }

    /// Records that the kernel thread has found work. After 4,096 such calls since a long yield, it may yield again.
    pub fn found(&mut self)
        ensures { self.new ≡ self.old - 1 }
    {
        self.rounds = self.rounds.saturating_sub(1);
    }

    /// Yields the processor once. If the yield takes more than two milliseconds, or the clock can't be read, forbids
    /// further yields for a while.
    pub fn yield_once<H: Clock>(&mut self, rt: &H)
        ensures { (self.new ≡ self.old) ⊎ (self.new ≡ ROUNDS_WITHOUT_YIELDS) }
    {
        if let Ok(before) = Instant::now(rt) {
            thread::yield_now();
            if let Ok(took) = before.elapsed(rt)
                && took <= Duration::from_micros(AT_ONCE)
            {
                return;
            }
        }
        self.rounds = ROUNDS_WITHOUT_YIELDS;
    }
}
