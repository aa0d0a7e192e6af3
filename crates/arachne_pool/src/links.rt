//! The children that the jobs in one slot have forked and not joined.
ghost use Rattle.std.specs.Prelude.{◌≡◌, ◌+◌, ◌∷◌, [], IfErr, IfSome, MatchOption, OnErr, OnOk, reverse, take};
ghost use Rattle.std.specs.VecDeque.{deque_len};
ghost use Rattle.arachne_pool.specs.Children.{LosesAside, LosesBegun, with_aside};

use crate::handle::{Cells, ResultReceiver, ResultSender, WantedResult};
use crate::job::PoolJob;
use std::alloc::Global;
use std::collections::VecDeque;
use std::marker::Model;
use std::snapshot::Snapshot;

/// The children of the jobs in one slot whose results were not fetched yet. `aside` has the children that have not
/// begun, and `begun` the receivers of the results of those that were moved to slots of their own. All children in
/// `aside` are newer than those in `begun`.
#[derive(Drop)]
pub(crate) struct Links<J: PoolJob> {
    begun: Vec<ResultReceiver<J>>,
    aside: VecDeque<J>,
}

impl<J: PoolJob> Model for Links<J> {
    ghost use Rattle.std.specs.Prelude.{All, [], ◌++◌, map, reverse};
    ghost use Rattle.std.specs.VecDeque.{deque_len};
    ghost use Rattle.arachne_pool.specs.Children.{Children};

    ghost Value = { Children J };

    ghost view = { λ l. record { all = reverse l.aside.items ++ map (λ r. r.opening.key.job.value) (reverse l.begun.items); aside = deque_len l.aside } };

    ghost invariant = { λ l. All (λ child. J.awaits child []) l.aside.items };
}

impl<J: PoolJob> Links<J> {
    pub(crate) fn new(alloc: Global) -> Links<J>
        ensures { result ≡ record { all = []; aside = 0 } }
    {
        Links {
            begun: Vec::new(alloc),
            aside: VecDeque::new(alloc),
        }
    }

    /// Returns the number of children that have not begun.
    pub(crate) fn aside(&self) -> usize
        ensures { result ≡ self.now.aside }
    {
        self.aside.len()
    }

    /// Adds `child` as the newest, which has not begun. Returns it as the error if memory is refused.
    pub(crate) fn put_aside(&mut self, child: J) -> Result<(), J>
        requires fresh { J.awaits child [] }
        ensures put { OnOk result (self.new ≡ with_aside child self.old) }
        ensures refused { OnErr result (self.new ≡ self.old) }
        ensures handed_back { IfErr result (λ back. back ≡ child) }
    {
        match self.aside.push_back(child) {
            Ok(()) => Ok(()),
            Err(failed) => Err(failed.value),
        }
    }

    /// Removes and returns the newest child, if it has not begun.
    pub(crate) fn take_newest(&mut self) -> Option<J>
        ensures taken { MatchOption result ((self.new ≡ self.old) × (self.old.aside ≡ 0)) (λ child. LosesAside child self.old self.new) }
        ensures fresh { IfSome result (λ child. J.awaits child []) }
    {
        self.aside.pop_back()
    }

    /// Removes the newest child and returns its result, if it has ended, and puts its cell into `cells` for later jobs.
    pub(crate) fn fetch_newest(&mut self, cells: &mut Cells<J>) -> Option<J::Output>
        requires { self.old.aside ≡ 0 }
        ensures { MatchOption result (self.new ≡ self.old) (λ output. (child : J) × (self.old.all ≡ child ∷ self.new.all) × (self.new.aside ≡ 0) × J.is_result child output) }
    {
        let receiver = self.begun.pop()?;
        match receiver.fetch() {
            Ok((outcome, cell)) => {
                cells.give(cell);
                Some(outcome.output)
            }
            Err(receiver) => {
                self.begun.push_reserved(receiver);
                None
            }
        }
    }

    /// Returns the oldest child that has not begun, so that it can run in a slot of its own, and a sender for its
    /// result. Returns `None`, and removes no child, if every child has begun or memory is refused.
    pub(crate) fn part_oldest(
        &mut self,
        alloc: Global,
        cells: &mut Cells<J>,
    ) -> Option<(J, ResultSender<J>)>
        ensures all { self.new.all ≡ self.old.all }
        ensures aside { MatchOption result (self.new.aside ≡ self.old.aside) (λ parted. self.new.aside + 1 ≡ self.old.aside) }
        ensures child { IfSome result (λ parted. (parted.1.key.job.value ≡ parted.0) × J.awaits parted.0 []) }
    {
        self.begun.try_reserve(1).ok()?;
        let child = self.aside.pop_front()?;
        let wanted = WantedResult {
            job: Snapshot::of(&child),
        };
        let Ok((receiver, sender)) = cells.open(alloc, &wanted) else {
            self.aside.push_front_reserved(child);
            return None;
        };
        self.begun.push_reserved(receiver);
        Some((child, sender))
    }

    /// Removes the newest child, whose result nobody will fetch, and returns it if it had not begun.
    pub(crate) fn forget_newest(&mut self) -> Option<J>
        ensures forgotten { MatchOption result (LosesBegun self.old self.new) (λ child. LosesAside child self.old self.new) }
        ensures fresh { IfSome result (λ child. J.awaits child []) }
    {
        if let Some(child) = self.aside.pop_back() {
            return Some(child);
        }
        self.begun.pop();
        None
    }

    /// Returns the children that have not begun, the oldest first, and drops the results of all others.
    pub(crate) fn into_aside(self) -> VecDeque<J>
        ensures { (reverse result.items ≡ take self.aside self.all) × (deque_len result ≡ self.aside) }
    {
        let Links { aside, .. } = self;
        aside
    }

    pub(crate) fn is_oldest_exclusive(&self) -> bool {
        match self.aside.front() {
            Some(child) => child.is_exclusive(),
            None => false,
        }
    }
}
