//! Wakes threads, and the workers of other cores that have threads to run.
ghost use Rattle.std.specs.Prelude.{◌≡◌, ◌≢◌, ◌↔◌, ◌≤◌, ◌<◌, ◌+◌, ◌^◌, [], false, length, min, IfSome, IsSome, None, Some};
ghost use Rattle.std.specs.Int.RustNames.{bit_or};
ghost use Rattle.arachne_core.specs.declared.layout.TheConstants.{SLOTS};
ghost use Rattle.arachne_core.specs.declared.mark.Mark.{Mark};
ghost use Rattle.arachne_workers.specs.declared.policy.TheConstants.{MOST_KEPT_BACK};
ghost use Rattle.arachne_workers.specs.RunQueues.{HasGivenNext};

use crate::dispatch::{Cause, Dispatch, WorkerEvent};
use crate::policy;
use crate::queue::{PostedThread, RunQueue};
use crate::shared::SharedWords;
use crate::worker::CoreWorker;
use arachne_core::{Mark, MarkWord, Place, ThreadId};
use std::sync::Wait;
use std::time::Clock;

impl<'a, H: Wait + Clock, D: Dispatch> CoreWorker<'a, H, D> {
    /// Wakes the thread `id`, if it is blocked, because of `cause`.
    ///
    /// If the thread was granted a lock, this worker may run it next, even in a slot of another core, since other
    /// threads may wait for the lock. Moves any other thread to this core if the worker of the thread's core sleeps,
    /// since to move a thread is cheaper than to wake a kernel thread. A context without a mark has no slot to note.
    pub(crate) fn wake(&mut self, id: ThreadId, cause: Cause)
        ensures dispatch { self.new.dispatch ≡ self.old.dispatch }
        ensures others { (self.new.queue ≡ record self.old.queue { ready = self.new.queue.ready; next = self.new.queue.next }) × (self.new.slices ≡ self.old.slices) }
        ensures next { cause ≢ Cause.IsServed → self.new.queue.next ≡ self.old.queue.next }
    {
        if !self.try_wake(id) {
            return;
        }
        self.dispatch.told(WorkerEvent::Woken(id, cause));
        let Some(mark) = self.dispatch.mark_of(id.context) else {
            return;
        };
        let is_served = cause == Cause::IsServed;
        let mut place = mark.place();
        let is_elsewhere = place.core != self.core;
        if is_served && (self.helps || !is_elsewhere) && self.queue.try_set_next(place) {
            if is_elsewhere {
                self.dispatch.told(WorkerEvent::Helps(id, place.core));
            }
            return;
        }
        if is_elsewhere && !is_served && self.shared.hints().is_asleep(place.core) {
            place = self.pull(id, place);
        }
        self.note(place);
    }

    /// Records that the thread in slot `place` may be ready, and wakes the slot's worker if it is another one and
    /// sleeps.
    pub(crate) fn note(&mut self, place: Place)
        ensures dispatch { self.new.dispatch ≡ self.old.dispatch }
        ensures others { (self.new.queue ≡ record self.old.queue { ready = self.new.queue.ready }) × (self.new.slices ≡ self.old.slices) }
    {
        if place.core == self.core {
            self.queue.note(place.index);
        } else {
            self.shared.hint(place);
        }
    }

    /// Wakes the thread `id`, and returns true if it was blocked. Repeats an attempt that a concurrent call made fail.
    fn try_wake(&mut self, id: ThreadId) -> bool
        ensures dispatch { self.new.dispatch ≡ self.old.dispatch }
        ensures same { (self.new.queue ≡ self.old.queue) × (self.new.slices ≡ self.old.slices) }
    {
        for _ in self.rt.forever() {
            if let Some(was_blocked) = self.dispatch.try_wake(id).settled() {
                return was_blocked;
            }
        }
        unreachable!()
    }

    /// Returns the thread's slot after an attempt to move it from slot `from` of another core to this one. The slot is
    /// read after the move, since another worker may have moved the thread again.
    #[inline(always)]
    fn pull(&mut self, id: ThreadId, from: Place) -> Place
        ensures dispatch { self.new.dispatch ≡ self.old.dispatch }
        ensures same { (self.new.queue ≡ self.old.queue) × (self.new.slices ≡ self.old.slices) }
    {
        if !self.dispatch.pull(from) {
            return from;
        }
        let place = match self.dispatch.mark_of(id.context) {
            Some(mark) => mark.place(),
            None => from,
        };
        if place.core == self.core {
            self.dispatch.told(WorkerEvent::Pulled(id, from.core));
        }
        place
    }

    /// Returns the slot of the thread that this worker runs next, if one is known.
    ///
    /// A thread that was granted a lock comes first. Without one, and if the last thread has blocked (`waits`) and no
    /// other may be ready here, moves here the newest thread that this worker has put on another core without waking
    /// that core's worker. If it can't be moved, wakes that worker, and tries the next newest. One that another worker
    /// has moved here meanwhile is left to the next scan.
    pub(crate) fn next(&mut self, waits: bool) -> Option<Place>
        ensures dispatch { self.new.dispatch ≡ self.old.dispatch }
        ensures next { IsSome self.old.queue.next → HasGivenNext result self.old.queue self.new.queue }
        ensures goes_on { self.old.queue.next ≡ None → waits ≡ false → (result ≡ None) × (self.new.queue ≡ self.old.queue) }
        ensures others { (self.new.queue ≡ record self.old.queue { posts = self.new.queue.posts; next = None }) × (self.new.slices ≡ self.old.slices) }
    {
        if let Some(place) = self.queue.take_next() {
            return Some(place);
        }
        if !waits || self.queue.is_any() {
            return None;
        }
        for _ in 0..policy::MOST_KEPT_BACK {
            let id = self.queue.take_newest()?.id;
            // If another worker has taken the thread, no wake is needed.
            let Some(place) = ready_place(self.dispatch.mark_of(id.context), id) else {
                continue;
            };
            let now = self.pull(id, place);
            if now.core == self.core && place.core != self.core {
                return Some(now);
            }
            self.shared.hint(place);
        }
        None
    }
}

/// Returns the slot of the thread `id`, if `mark` says that it is ready and still in its context.
#[inline(always)]
fn ready_place(mark: Option<MarkWord>, id: ThreadId) -> Option<Place>
    ensures there { IsSome result → IsSome mark }
    ensures ready { IfSome mark (λ mark. IsSome result ↔ (mark.mark ≡ Mark.Ready) × (mark.generation ≡ id.generation)) }
    ensures place { IfSome mark (λ mark. IfSome result (λ place. place ≡ mark.place)) }
{
    let mark = mark?;
    if mark.mark() != Mark::Ready || mark.generation() != id.generation {
        return None;
    }
    Some(mark.place())
}

/// If a thread was posted on `core`, the next scan visits it. Otherwise the worker of its core is woken, at once or
/// after a delay.
#[inline(always)]
pub(crate) fn posted(queue: &mut RunQueue, shared: &SharedWords, core: u8, post: PostedThread)
    ensures others { (queue.new.scan ≡ queue.old.scan) × (queue.new.next ≡ queue.old.next) × (queue.new.lag ≡ queue.old.lag) }
    ensures here { post.place.core ≡ core → queue.new ≡ record queue.old { ready = queue.new.ready } }
    ensures noted { post.place.core ≡ core → post.place.index < SLOTS
        → queue.new.ready ≡ bit_or queue.old.ready (2 ^ post.place.index) }
    ensures elsewhere { post.place.core ≢ core → (queue.new ≡ record queue.old { posts = queue.new.posts; posted = queue.new.posted })
        × (queue.new.posted ≡ min (queue.old.posted + 1) u32.MAX) }
{
    if post.place.core == core {
        queue.note(post.place.index);
    } else if let Some(due) = queue.keep_back(post) {
        shared.hint(due.place);
    }
}

/// Makes all delayed wakes, of which there are at most `MOST_KEPT_BACK`.
pub(crate) fn tell_all(queue: &mut RunQueue, shared: &SharedWords)
    ensures others { queue.new ≡ record queue.old { posts = queue.new.posts } }
    ensures all { length queue.old.posts.items ≤ MOST_KEPT_BACK → queue.new.posts.items ≡ [] }
{
    for _ in 0..policy::MOST_KEPT_BACK {
        let Some(post) = queue.take_newest() else {
            break;
        };
        shared.hint(post.place);
    }
}
