//! The rules that the log of every run must keep, and the result of checking a log.
ghost use Rattle.std.specs.Prelude.{◌≡◌, ◌<◌, ◌+◌, length, min, slice_index_or, slice_set};
ghost use Rattle.arachne_judge.specs.Rules.{number_of, rules};
ghost use Rattle.arachne_judge.specs.declared.rules.Rule.TheVariants.{OwnCore};

use arachne_policy::CoreOrder;

/// A rule that the log of every run must keep.
#[derive(Clone, Copy, Debug, PartialEq, Eq)]
pub enum Rule {
    /// A thread continues on its core, unless a log entry says that it was moved, or that another core's worker runs
    /// it.
    OwnCore,
    /// A slice belongs to the thread that the core's worker took last, and that thread has not ended.
    InHand,
    /// The slices of a core are numbered from 0, without gaps.
    Numbers,
    /// No slice has more steps than the quantum (the run's greatest number of steps for a slice).
    Quantum,
    /// Core 0 carries out an order (to close or open a core) once the order's number of slices has ended, and before
    /// core 0's next slice.
    Due,
    /// Only core 0 moves threads away from closed cores to others.
    CoreZero,
    /// A core's worker parks (sleeps until the core is opened) only while the core is closed and has no thread.
    Parks,
    /// A core's worker that has parked continues only if an order has opened the core since, or if the run has ended.
    Unparks,
    /// A thread that has its core to itself is the only thread that runs there, from when it first runs to its end.
    Alone,
    /// In one scan (a pass over its core's slots), a worker takes threads in ascending order of their slots. This rule
    /// is checked in runs on one core without locks.
    Upwards,
    /// No child waits for a slot while one is free. This rule is checked in runs on one core whose worker claims no
    /// slots in advance for later children.
    Places,
    /// A thread that waits continues only after another thread has woken it.
    Waits,
    /// No worker moves another core's thread to its own core, or runs such a thread. This rule is checked in programs
    /// with an exclusive fork (one whose child wants a core for itself).
    Stays,
    /// If a worker reports that it has taken a thread from another core, that core isn't the worker's own.
    Pulls,
}

const RULES: usize = 14;

impl Rule {
    /// Returns the rule's number, counted from 0.
    pub fn number(self) -> usize
        ensures number { result ≡ number_of self }
        ensures listed { (result < length rules) × (slice_index_or rules result OwnCore ≡ self) }
    {
        self as usize
    }
}

/// For each rule, the number of times that it was checked.
#[derive(Clone, Copy, Debug, PartialEq, Eq)]
pub struct Counts {
    counts: [u64; RULES],
}

impl Counts {
    pub fn new() -> Counts {
        Counts { counts: [0; RULES] }
    }

    pub fn add(&mut self, rule: Rule, times: u64)
        ensures { self.new.counts ≡ slice_set self.old.counts (number_of rule) (min (slice_index_or self.old.counts (number_of rule) 0 + times) u64.MAX) }
    {
        let at = rule.number();
        self.counts[at] = self.counts[at].saturating_add(times);
    }

    /// Adds the counts of `others` to these counts.
    pub fn add_all(&mut self, others: &Counts) {
        for (count, other) in self.counts.iter_mut().zip(others.counts.iter()) {
            *count = count.saturating_add(*other);
        }
    }

    /// Returns the number of times that `rule` was checked.
    pub fn of(&self, rule: Rule) -> u64
        ensures { result ≡ slice_index_or self.now.counts (number_of rule) 0 }
    {
        self.counts[rule.number()]
    }
}

/// The facts about a run that are known before its log is read.
#[derive(Clone, Copy)]
pub struct Run<'r> {
    pub cores: u8,
    pub slots: u8,
    pub quantum: u32,
    pub orders: &'r [CoreOrder],
    pub has_locks: bool,
    pub has_exclusive: bool,
}

#[derive(Clone, Copy, Debug, PartialEq, Eq)]
pub struct Broken {
    pub rule: Rule,
    pub at: usize,
}

#[derive(Clone, Copy, Debug, PartialEq, Eq)]
pub struct Verdict {
    pub counts: Counts,
    /// The first rule that the run has broken, if there is one.
    pub broken: Option<Broken>,
    /// The sum of the steps of all slices.
    pub steps: u64,
}
