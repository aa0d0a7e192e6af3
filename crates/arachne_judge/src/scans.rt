//! Checks the order in which a worker takes threads, and the use of slots, in runs on one core without locks.
//!
//! In such a run a context is always in the same slot, and its number is the slot's index.
ghost use Rattle.std.specs.Prelude.{◌≡◌, ◌≤◌, ◌<◌, ◌+◌, ◌↔◌, true, min, IfSome, IsSome, IsTrue};

use crate::rules::Run;

/// The facts that the log has shown so far about a worker's scans (passes over the core's slots) and about the slots.
#[derive(Default, Drop)]
pub(crate) struct Scans {
    /// True if the order of threads in a scan (pass over the slots) can be checked, since there is one core and no
    /// lock.
    is_judged: bool,
    /// True if the use of slots can be checked too, since the worker claims no slots in advance.
    are_places: bool,
    slots: u64,
    last: Option<u32>,
    /// The slot of a ready thread that the current scan (pass over the slots) must still reach, if one is known.
    due: Option<u32>,
    /// The number of threads that are known to be on the core.
    threads: u64,
    /// The number of threads that no entry has named yet, but that must be on the core, since a child waits for a slot.
    unseen: u64,
    /// The number of scans (passes over the slots) that have begun since a child began to wait for a slot.
    scans: u32,
}

#[derive(Clone, Copy, Default)]
pub(crate) struct TurnFindings {
    /// True if a new scan (pass over the slots) has begun.
    pub(crate) is_judged: bool,
    /// True if the previous scan (pass over the slots) has missed a ready thread.
    pub(crate) is_downward: bool,
    /// True if a child has waited for a slot although one was free.
    pub(crate) was_free: bool,
}

impl Scans {
    pub(crate) fn new(run: Run<'_>) -> Scans {
        let is_judged = run.cores == 1 && !run.has_locks;
        Scans {
            is_judged,
            are_places: is_judged && run.has_exclusive,
            slots: u64::from(run.slots),
            ..Scans::default()
        }
    }

    pub(crate) fn last(&self) -> Option<u32> {
        self.last
    }

    pub(crate) fn ended(&mut self) {
        self.threads = self.threads.saturating_sub(1);
    }

    /// Returns true if the run's use of slots is checked.
    pub(crate) fn spilled(&mut self) -> bool
        ensures { result ≡ self.old.are_places }
    {
        if !self.are_places {
            return false;
        }
        if self.unseen == 0 {
            self.unseen = self.slots.saturating_sub(self.threads);
            self.scans = 0;
        }
        true
    }

    /// `goes_on` is true if the thread that the worker took before this one is still ready. `is_first` is true if the
    /// thread in slot `index` is taken for the first time.
    pub(crate) fn turn(&mut self, index: u32, goes_on: bool, is_first: bool) -> TurnFindings
        ensures downward { IsTrue result.is_downward ↔ (result.is_judged ≡ true) × IsSome self.old.due }
        ensures free { IsTrue result.was_free ↔ (result.is_judged ≡ true) × (0 < self.old.unseen) × (1 < min (self.old.scans + 1) u32.MAX) }
        ensures judged { IsTrue result.is_judged ↔ (self.old.is_judged ≡ true) × IsSome self.old.last × IfSome self.old.last (λ last. index ≤ last) }
    {
        let mut found = TurnFindings::default();
        if !self.is_judged {
            return found;
        }
        if let Some(last) = self.last
            && index <= last
        {
            found.is_judged = true;
            found.is_downward = self.due.is_some();
            self.due = if goes_on { Some(last) } else { None };
            self.scans = self.scans.saturating_add(1);
            found.was_free = self.unseen > 0 && self.scans > 1;
        }
        if is_first {
            self.threads = self.threads.saturating_add(1);
            self.unseen = self.unseen.saturating_sub(1);
        }
        if self.due == Some(index) {
            self.due = None;
        }
        self.last = Some(index);
        found
    }
}
