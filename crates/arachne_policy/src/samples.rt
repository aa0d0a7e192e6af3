//! Samples of the load, and the advice that the estimator gives on them.
ghost use Rattle.std.specs.Prelude.{◌≡◌, ◌<◌, ◌≤◌, Some};
ghost use Rattle.arachne_policy.specs.Advice.{advice_text};
ghost use Rattle.arachne_policy.specs.Sample.{most_counted, load_of, utilisation_of, is_good};

use crate::limits::MAX_COUNT;
use std::fmt;
use thiserror::Error;

/// A sample: the measurements of one period on all cores together.
#[derive(Clone, Copy, Debug, PartialEq, Eq)]
pub struct Sample {
    /// The number of cores that the runtime had in the period.
    pub cores: u64,
    /// The number of runnable threads that scans of cores saw, summed over all scans.
    pub runnable: u64,
    /// The number of times that a core was scanned for runnable threads.
    pub scans: u64,
    /// The time in which cores ran threads, summed over the cores, in the unit of `elapsed`.
    pub busy: u64,
    /// The length of the period, in any unit of time.
    pub elapsed: u64,
}

/// The advice to ask for one core more, to keep the number of cores, or to give one core back.
#[derive(Clone, Copy, Debug, PartialEq, Eq)]
pub enum Advice {
    Add,
    Stay,
    Remove,
}

impl fmt::Display for Advice {
    ghost output = { λ a. Some (advice_text a) };

    fn fmt<W: fmt::Write>(&self, f: &mut fmt::Formatter<W>) -> fmt::Result {
        f.write_str(self.word())
    }
}

impl Advice {
    fn word(&self) -> &'static str
        ensures { result.now ≡ advice_text self.now }
    {
        match self {
            Advice::Add => "add",
            Advice::Stay => "stay",
            Advice::Remove => "remove",
        }
    }
}

/// The error of a sample that cannot have been measured.
///
/// Such a sample has no core, too many cores, no elapsed time, too much busy time, or a number above `MAX_COUNT`.
#[derive(Clone, Copy, Debug, PartialEq, Eq, Error)]
#[error("the sample cannot have been measured")]
pub struct BadSample;

impl Sample {
    /// Returns whether an estimator for at most `max` cores can judge the sample.
    pub(crate) fn is_good(&self, max: u8) -> bool
        ensures { result ≡ is_good max self.now }
    {
        1 <= self.cores
            && self.cores <= u64::from(max)
            && self.runnable <= MAX_COUNT
            && self.scans <= MAX_COUNT
            && self.busy <= MAX_COUNT
            && 1 <= self.elapsed
            && self.elapsed <= MAX_COUNT
            && self.busy <= self.cores * self.elapsed
    }

    /// Returns the average number of runnable threads that a scan of a core saw, in thousandths of a thread.
    pub(crate) fn load(&self) -> u64
        requires { self.now.runnable ≤ most_counted }
        ensures { result ≡ load_of self.now }
    {
        if self.scans == 0 {
            0
        } else {
            1000 * self.runnable / self.scans
        }
    }

    /// Returns the average number of busy cores, in thousandths of a core.
    pub(crate) fn utilisation(&self) -> u64
        requires counted { self.now.busy ≤ most_counted }
        requires timed { 0 < self.now.elapsed }
        ensures { result ≡ utilisation_of self.now }
    {
        1000 * self.busy / self.elapsed
    }
}
