//! Advises, from measurements of the load, when to ask for one core more, and when to give a core back.
ghost use Rattle.std.specs.Prelude.{◌≡◌, ◌≢◌, ◌+◌, ◌-◌, ◌≤◌, true, List, [], ◌∷◌, is_ok, IfOk, OnErr, Ok};
ghost use Rattle.arachne_policy.specs.declared.samples.Sample.{Sample};
ghost use Rattle.arachne_policy.specs.Sample.{utilisation_of, is_good};
ghost use Rattle.arachne_policy.specs.Advice.{advice_by, advice, RecordStands};
ghost use Rattle.arachne_policy.specs.State.{most_cores, threshold_at, after, StandsFor};

use crate::limits::MAX_CORES;
use crate::samples::{Advice, BadSample, Sample};
use std::marker::Model;

/// Judges samples of the load one after another, and advises to add or to remove a core.
///
/// The advice is to add a core if scans of cores see too many runnable threads on average. The utilisation (average
/// number of busy cores) at that time becomes the threshold for the new number of cores. The advice is to remove a core
/// if the utilisation is below this threshold by more than the hysteresis. Arachne's original estimator has this form.
#[derive(Clone, Debug, Drop)]
pub struct Estimator {
    up: u64,
    hysteresis: u64,
    max: u8,
    thresholds: [u64; MAX_CORES],
}

// Contracts describe an estimator by its settings and thresholds. The threshold of n cores is at index n - 1.
impl Model for Estimator {
    ghost use Rattle.std.specs.Prelude.{◌≤◌};
    ghost use Rattle.arachne_policy.specs.State.{State, most_cores};

    ghost Value = { State };

    ghost view = { λ e. record { settings = record { up = e.up; hysteresis = e.hysteresis; max = e.max }; thresholds = e.thresholds } };

    ghost invariant = { λ e. e.max ≤ most_cores };
}

impl Estimator {
    /// Creates an estimator that has judged no sample yet.
    ///
    /// The advice is to add a core, up to `max` cores, if a scan of a core sees more than `up` / 1000 runnable threads
    /// on average. The advice is to remove a core if the utilisation is below the threshold for this number of cores by
    /// more than `hysteresis` / 1000 cores.
    pub fn new(up: u64, hysteresis: u64, max: u8) -> Self
        requires { max ≤ most_cores }
        ensures settings { result.settings ≡ record { up = up; hysteresis = hysteresis; max = max } }
        ensures empty { StandsFor result [] }
    {
        let mut thresholds = [0; MAX_CORES];
        let mut threshold = 0;
        for entry in thresholds.iter_mut() {
            *entry = threshold;
            threshold += 1000;
        }
        Estimator {
            up,
            hysteresis,
            max,
            thresholds,
        }
    }

    /// Creates an estimator with the thresholds (of the advice to remove a core) that another estimator has learnt. The
    /// threshold for n cores is at index n - 1, in thousandths of a core.
    pub fn resume(up: u64, hysteresis: u64, max: u8, thresholds: &[u64; MAX_CORES]) -> Self
        requires { max ≤ most_cores }
        ensures settings { result.settings ≡ record { up = up; hysteresis = hysteresis; max = max } }
        ensures thresholds { result.thresholds ≡ thresholds.now }
    {
        Estimator {
            up,
            hysteresis,
            max,
            thresholds: *thresholds,
        }
    }

    /// Returns the learnt thresholds, below which the advice is to remove a core. The threshold for n cores is at index
    /// n - 1, in thousandths of a core.
    pub fn thresholds(&self) -> &[u64; MAX_CORES]
        ensures { result.now ≡ self.now.thresholds }
    {
        &self.thresholds
    }

    /// Returns the advice on `sample`. After `Add`, the sample's utilisation is the threshold for one more core.
    ///
    /// If `sample` has values that no measurement can have, returns an error, and changes nothing.
    pub fn estimate(&mut self, sample: Sample) -> Result<Advice, BadSample>
        ensures good { is_ok result ≡ is_good self.old.settings.max sample }
        ensures advice { IfOk result (λ a. a ≡ advice_by self.old.settings (threshold_at self.old) sample) }
        ensures after { IfOk result (λ a. self.new ≡ after self.old sample a) }
        ensures bad { OnErr result (self.new ≡ self.old) }

        // If the thresholds were the result of some past samples, they are now the result of these samples and
        // `sample`.
        ensures history { (past : List Sample) → StandsFor self.old past
            → IfOk result (λ a. (a ≡ advice self.old.settings past sample) × StandsFor self.new (sample ∷ past)) }

        // After a core was added, the advice is not to give it back as long as the utilisation has fallen by no more
        // than the hysteresis since then.
        ensures hysteresis { (past : List Sample) (added : Sample) → StandsFor self.old past
            → RecordStands self.old.settings past added
            → sample.cores ≡ added.cores + 1
            → utilisation_of added - self.old.settings.hysteresis ≤ utilisation_of sample
            → result ≢ Ok Advice.Remove }
    {
        if !sample.is_good(self.max) {
            return Err(BadSample);
        }
        let advice = self.advise(&sample);
        if advice == Advice::Add {
            self.thresholds[sample.cores as usize] = sample.utilisation();
        }
        Ok(advice)
    }

    /// Returns the advice on `sample` by the present thresholds.
    fn advise(&self, sample: &Sample) -> Advice
        requires { is_good self.now.settings.max sample.now ≡ true }
        ensures { result ≡ advice_by self.now.settings (threshold_at self.now) sample.now }
    {
        if sample.load() > self.up && sample.cores < u64::from(self.max) {
            return Advice::Add;
        }
        let threshold = self.thresholds[sample.cores as usize - 1];
        if sample.cores > 1 && sample.utilisation() < threshold.saturating_sub(self.hysteresis) {
            Advice::Remove
        } else {
            Advice::Stay
        }
    }
}
