//! Measures the load, and opens cores or gives them back as the core policy advises.
ghost use Rattle.std.specs.Prelude.{ℕ, ◌≡◌, ◌+◌, ◌<◌, ◌≤◌, [], ◌∷◌, IfSome};
ghost use Rattle.arachne_policy.specs.Orders.{AreInOrder};

use arachne_policy::{Advice, CoreOrder, Estimator, OrderKind, Sample};
use std::alloc::Global;

/// The average number of ready requests in a scan of one core, in thousandths, above which the server asks for a core.
const UP: u64 = 1500;

/// The hysteresis of the core policy, in thousandths of a core.
const HYSTERESIS: u64 = 90;

/// The settings of the server.
#[derive(Clone, Copy)]
pub struct Settings {
    /// The greatest number of cores that the server may hold: at most 63, since a 64th core is the sender's.
    pub most: u8,
    /// The length of the interval in which the load is measured once, in nanoseconds.
    pub interval: u64,
    /// The greatest time, in nanoseconds, that a request may wait for a slot.
    pub patience: u64,
    ghost some: { 1 ≤ most },
    ghost few: { most < 64 },
}

/// The load that was measured in an interval, and the policy's advice on it.
#[derive(Clone, Copy)]
pub struct Judged {
    /// The time at which the interval ended, in nanoseconds of the clock.
    pub at: u64,
    pub sample: Sample,
    pub advice: Advice,
}

/// Measures the load in each interval, and decides how many cores the server holds (the first `held` cores).
#[derive(Drop)]
pub struct Keeper {
    estimator: Estimator,
    interval: u64,
    pub most: u8,
    held: u8,
    /// The time at which this interval began, in nanoseconds of the clock. `busy` is the time of all work until then.
    begun: u64,
    busy: u64,
    /// The number of ready jobs that the scans of this interval have seen. `scans` is the number of cores scanned.
    runnable: u64,
    scans: u64,
    pub judged: Vec<Judged>,
    ghost some: { 1 ≤ held },
    ghost few: { held ≤ most },
}

impl Keeper {
    /// Creates a keeper of all cores at the time `now`, in nanoseconds of the clock.
    pub fn new(alloc: Global, settings: Settings, now: u64) -> Keeper
        ensures { result.most ≡ settings.most }
    {
        Keeper {
            estimator: Estimator::new(UP, HYSTERESIS, settings.most),
            interval: settings.interval,
            most: settings.most,
            held: settings.most,
            begun: now,
            busy: 0,
            runnable: 0,
            scans: 0,
            judged: Vec::new(alloc),
        }
    }

    /// Counts a scan of all cores that the server holds, which saw `runnable` ready jobs.
    ///
    /// If the interval has ended, asks the policy for advice, and returns the order to open or close a core, if one
    /// follows. `busy` is the time, in nanoseconds, that all work has taken so far.
    pub fn scan(&mut self, now: u64, runnable: u64, busy: u64) -> Option<CoreOrder>
        ensures most { self.new.most ≡ self.old.most }
        ensures order { IfSome result (λ order. AreInOrder (self.old.most + 1) (order ∷ [])) }
    {
        self.runnable = self.runnable.saturating_add(runnable);
        self.scans = self.scans.saturating_add(u64::from(self.held));
        let elapsed = now.saturating_sub(self.begun);
        if elapsed < self.interval {
            return None;
        }
        let cores = u64::from(self.held);
        let sample = Sample {
            cores,
            runnable: self.runnable,
            scans: self.scans,
            busy: busy
                .saturating_sub(self.busy)
                .min(cores.saturating_mul(elapsed)),
            elapsed,
        };
        self.busy = busy;
        self.begun = now;
        self.runnable = 0;
        self.scans = 0;
        let advice = self.estimator.estimate(sample).unwrap_or(Advice::Stay);
        let at = now;
        let _ = self.judged.push(Judged { at, sample, advice });
        self.follow(advice)
    }

    /// Follows the policy's advice. Returns the order to open or close a core, if there is one.
    fn follow(&mut self, advice: Advice) -> Option<CoreOrder>
        ensures most { self.new.most ≡ self.old.most }
        ensures order { IfSome result (λ order. AreInOrder (self.old.most + 1) (order ∷ [])) }
    {
        match advice {
            Advice::Add if self.held < self.most => {
                self.held += 1;
                Some(order(OrderKind::Grant, self.held - 1))
            }
            Advice::Remove if self.held > 1 => {
                self.held -= 1;
                Some(order(OrderKind::Release, self.held))
            }
            _ => None,
        }
    }
}

/// Returns an order to open or close a core that is due at once.
#[tactic(auto, using(crate::proofs::Orders::one_in_order))]
pub fn order(kind: OrderKind, core: u8) -> CoreOrder
    requires { 0 < core }
    ensures { (cores : ℕ) → core < cores → AreInOrder cores (result ∷ []) }
{
    CoreOrder {
        after: 0,
        kind,
        core: u64::from(core),
    }
}
