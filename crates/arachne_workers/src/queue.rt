//! A worker's private queue: the threads that it runs next, and the wakes of other workers that it has delayed.
ghost use Rattle.std.specs.Prelude.{◌≡◌, ◌≢◌, ◌≤◌, ◌<◌, ◌↔◌, ◌⊎◌, [], ◌∷◌, ◌++◌, ◌^◌, ◌+◌, ◌-◌, max, min, length, None, Some, if◌then◌else◌, IfSome, IsSome, IsTrue, MatchOption};
ghost use Rattle.std.specs.Int.RustNames.{bit_or};
ghost use Rattle.arachne_core.specs.declared.layout.TheConstants.{SLOTS};
ghost use Rattle.arachne_workers.specs.declared.policy.TheConstants.{MOST_KEPT_BACK, PATIENCE, SCANS_BETWEEN_LOOKS};
ghost use Rattle.arachne_workers.specs.Lowest.{IsLowest};
ghost use Rattle.arachne_workers.specs.Posts.{IsKeptBack};

use crate::hints::bit_of;
use crate::lag::Lag;
use crate::policy;
use arachne_core::{Place, SLOTS, ThreadId};
use std::alloc::Global;

/// A thread that was put into a slot, ready to run.
#[derive(Clone, Copy)]
pub struct PostedThread {
    pub id: ThreadId,
    pub place: Place,
}

/// The slots of the threads that a worker runs next, and the wakes of other workers that it has delayed.
#[derive(Drop)]
pub struct RunQueue {
    /// The slots that the current scan must still visit, one bit each.
    scan: u64,
    /// The slots that the next scan visits because a thread there may be ready, one bit each.
    ready: u64,
    /// The slot, perhaps on another core, whose thread runs before all others.
    next: Option<Place>,
    /// The threads put on other cores whose workers were not woken yet, the newest last.
    posts: Vec<PostedThread>,
    /// The number of steps after which this worker must make all delayed wakes.
    patience: u32,
    /// The number of threads that this worker has put on other cores so far.
    posted: u32,
    /// The number of scans since `take_look_due` last returned true.
    scans: u32,
    /// Counts steps since this worker last read the stop word, and since it last carried out due orders.
    pub(crate) lag: Lag,
}

impl RunQueue {
    /// Creates a queue whose first scan visits only slot `root` (the root thread's), or no slot. Allocates nothing.
    pub fn new(alloc: Global, root: Option<u8>) -> RunQueue
        ensures root { IfSome root (λ index. index < SLOTS → result.ready ≡ 2 ^ index) }
        ensures rootless { root ≡ None → result.ready ≡ 0 }
        ensures posts { (result.posts.items ≡ []) × (result.posted ≡ 0) × (result.patience ≡ PATIENCE) }
        ensures scan { (result.scan ≡ 0) × (result.scans ≡ 0) × (result.next ≡ None) }
        ensures lag { result.lag.most ≡ 0 }
    {
        RunQueue {
            scan: 0,
            ready: match root {
                Some(index) => bit_of(index),
                None => 0,
            },
            next: None,
            posts: Vec::new(alloc),
            patience: policy::PATIENCE,
            posted: 0,
            scans: 0,
            lag: Lag::none(),
        }
    }

    /// Records that the thread in slot `index` may be ready, so that the next scan visits that slot.
    pub fn note(&mut self, index: u8)
        ensures there { index < SLOTS → self.new.ready ≡ bit_or self.old.ready (2 ^ index) }
        ensures others { self.new ≡ record self.old { ready = self.new.ready } }
    {
        self.ready |= bit_of(index);
    }

    /// Begins a scan of the slots in `indexes`, and of those that `note` has recorded since the last scan began.
    pub(crate) fn begin_scan(&mut self, indexes: u64)
        ensures begun { (self.new.scan ≡ bit_or self.old.ready indexes) × (self.new.ready ≡ 0) }
        ensures counted { self.new.scans ≡ min (self.old.scans + 1) u32.MAX }
        ensures others { self.new ≡ record self.old { scan = self.new.scan; ready = self.new.ready; scans = self.new.scans } }
    {
        self.scan = self.ready | indexes;
        self.ready = 0;
        self.scans = self.scans.saturating_add(1);
    }

    /// Returns true, and restarts the count of scans, if the next scan must visit all occupied slots, recorded or not.
    pub(crate) fn take_look_due(&mut self) -> bool
        ensures due { IsTrue result ↔ SCANS_BETWEEN_LOOKS ≤ self.old.scans }
        ensures counted { self.new ≡ record self.old { scans = if result then 0 else self.old.scans } }
    {
        let is_due = self.scans >= policy::SCANS_BETWEEN_LOOKS;
        if is_due {
            self.scans = 0;
        }
        is_due
    }

    /// Removes the lowest of the slots that the current scan must still visit, and returns its index.
    pub(crate) fn next_index(&mut self) -> Option<u8>
        ensures lowest { MatchOption result (self.old.scan ≡ 0) (λ index. IsLowest self.old.scan index) }
        ensures fewer { MatchOption result (self.new.scan ≡ 0) (λ _. self.new.scan < self.old.scan) }
        ensures others { self.new ≡ record self.old { scan = self.new.scan } }
    {
        if self.scan == 0 {
            return None;
        }
        let index = self.scan.trailing_zeros() as u8;
        self.scan &= self.scan - 1;
        Some(index)
    }

    /// Returns true if this or the next scan has a slot to visit, or a thread is to run before all others.
    pub(crate) fn is_any(&self) -> bool
        ensures { IsTrue result ↔ (bit_or self.now.scan self.now.ready ≢ 0) ⊎ IsSome self.now.next }
    {
        self.scan | self.ready != 0 || self.next.is_some()
    }

    /// Makes the thread in slot `place` run before all others, or returns false if another must already run first.
    pub(crate) fn try_set_next(&mut self, place: Place) -> bool
        ensures will { IsTrue result ↔ (self.old.next ≡ None) }
        ensures next { self.new ≡ record self.old { next = if result then Some place else self.old.next } }
    {
        if self.next.is_some() {
            return false;
        }
        self.next = Some(place);
        true
    }

    /// Returns true if this worker runs the next holder of a lock next.
    pub(crate) fn has_next(&self) -> bool
        ensures { IsTrue result ↔ IsSome self.now.next }
    {
        self.next.is_some()
    }

    pub(crate) fn take_next(&mut self) -> Option<Place>
        ensures taken { MatchOption result (self.old.next ≡ None) (λ place. self.old.next ≡ Some place) }
        ensures others { self.new ≡ record self.old { next = None } }
    {
        self.next.take()
    }

    /// Delays the wake of another core's worker for the thread `post`, unless it is one of the worker's first posts.
    ///
    /// Returns the thread for which a worker must be woken now: `post` if it isn't delayed, the oldest delayed one if
    /// there are too many, else `None`.
    pub(crate) fn keep_back(&mut self, post: PostedThread) -> Option<PostedThread>
        ensures kept { IsKeptBack self.old.posted self.old.posts.items post result self.new.posts.items }
        ensures few { length self.old.posts.items ≤ MOST_KEPT_BACK → length self.new.posts.items ≤ MOST_KEPT_BACK }
        ensures counted { self.new.posted ≡ min (self.old.posted + 1) u32.MAX }
        ensures others { self.new ≡ record self.old { posts = self.new.posts; posted = self.new.posted } }
    {
        let before = self.posted;
        self.posted = before.saturating_add(1);
        if before < policy::TOLD_AT_ONCE {
            return Some(post);
        }
        if self.posts.len() >= policy::MOST_KEPT_BACK || self.posts.try_reserve(1).is_err() {
            return Some(for_oldest(&mut self.posts, post));
        }
        self.posts.push_reserved(post);
        None
    }

    /// Removes and returns the newest of the threads whose workers were not woken yet.
    pub(crate) fn take_newest(&mut self) -> Option<PostedThread>
        ensures newest { MatchOption result ((self.old.posts.items ≡ []) × (self.new.posts.items ≡ [])) (λ newest. self.old.posts.items ≡ self.new.posts.items ++ newest ∷ []) }
        ensures others { self.new ≡ record self.old { posts = self.new.posts } }
    {
        self.posts.pop()
    }

    /// Lets wakes be delayed for `PATIENCE` more steps, if none is delayed when a slice begins.
    pub(crate) fn begin_slice(&mut self)
        ensures empty { self.old.posts.items ≡ [] → self.new ≡ record self.old { patience = PATIENCE } }
        ensures kept_back { self.old.posts.items ≢ [] → self.new ≡ self.old }
        ensures others { self.new ≡ record self.old { patience = self.new.patience } }
    {
        if self.posts.is_empty() {
            self.patience = policy::PATIENCE;
        }
    }

    /// Returns how many of the `left` steps may be made until delayed wakes are due: at least 1, so that some are made.
    #[inline(always)]
    pub(crate) fn stretch(&self, left: u32) -> u32
        ensures { result ≡ min left (max 1 self.now.patience) }
    {
        left.min(self.patience.max(1))
    }

    /// Returns true if `steps` more steps make all delayed wakes due. Later ones may then be delayed as long again.
    pub(crate) fn spend(&mut self, steps: u32) -> bool
        ensures due { IsTrue result ↔ self.old.patience ≤ steps }
        ensures left { self.new ≡ record self.old { patience = if result then PATIENCE else self.old.patience - steps } }
    {
        let is_due = self.patience <= steps;
        self.patience = if is_due {
            policy::PATIENCE
        } else {
            self.patience - steps
        };
        is_due
    }
}

/// Appends `post`, and removes and returns the oldest of `posts`, so that the list needs no more memory.
fn for_oldest(posts: &mut Vec<PostedThread>, post: PostedThread) -> PostedThread
    ensures all { result ∷ posts.new.items ≡ posts.old.items ++ post ∷ [] }
    ensures many { length posts.new.items ≡ length posts.old.items }
{
    if posts.is_empty() {
        return post;
    }
    let oldest = posts.remove(0);
    posts.push_reserved(post);
    oldest
}
