//! Runs a thread that the worker has taken, slice after slice, until the worker puts the thread back or ends it. The
//! worker's `queue.lag` counts the steps since the worker last read the stop word, and since it last looked for orders.
ghost use Rattle.std.specs.Prelude.{◌≡◌, ◌≤◌, ◌<◌, ◌+◌, true, min, IfOk, IsTrue};
ghost use Rattle.arachne_workers.specs.RunQueues.{HasLooked, LooksWithin};

use crate::dispatch::{Cause, Dispatch, Halt, SliceEnd, ThreadStop, WorkerEvent, thin_out};
use crate::policy;
use crate::wake::{posted, tell_all};
use crate::worker::CoreWorker;
use arachne_core::{Place, Rest};
use std::sync::Wait;
use std::time::Clock;

impl<'a, H: Wait + Clock, D: Dispatch> CoreWorker<'a, H, D> {
    /// Runs the thread in slot `place` for a slice, and for more while it holds a lock or no other thread is ready.
    ///
    /// Then puts the thread back, or ends it and wakes its parent. Returns true if the thread was put back as blocked.
    pub(crate) fn turn(&mut self, place: Place) -> Result<bool, Halt>
        requires { HasLooked self.old.queue }
        ensures dispatch { self.new.dispatch ≡ self.old.dispatch }
        ensures scan { self.new.queue.scan ≡ self.old.queue.scan }
        ensures heeds { LooksWithin (D.largest_quantum self.old.dispatch) self.old.queue self.new.queue }
    {
        let quantum = self.dispatch.quantum();
        self.queue.lag.allow(quantum);
        // The steps that the thread may still make in a row because it holds a lock.
        let mut grace = policy::STEPS_TO_FREE;
        let mut end = self.slice(quantum)?;
        for _ in 1..policy::MOST_ALONE {
            let holds = self.dispatch.holds();
            if end != SliceEnd::GoesOn || !self.goes_on(holds, grace) {
                break;
            }
            let steps = policy::most_steps(quantum, holds, grace);
            grace = policy::grace_left(holds, grace, steps);
            // Before each slice, since an order may have become due since the last slice ended.
            self.tend();
            end = self.slice(steps)?;
        }
        if end == SliceEnd::Ended {
            // Read while the thread still has its slot: if the core is full with it, the worker keeps the slot for a
            // later child.
            let before = self.dispatch.look();
            if let Some(parent) = self.dispatch.end(before)? {
                self.wake(parent, Cause::ChildEnded);
            }
            thin_out(&mut self.dispatch, self.slots)?;
            return Ok(false);
        }
        let rest = self.dispatch.rest()?;
        if rest == Rest::Ready {
            self.note(place);
        }
        Ok(rest == Rest::Blocked)
    }

    /// Returns true if the current thread gets another slice at once.
    ///
    /// None does after `stop`. A thread that `holds` a lock goes on while it has some `grace` (extra steps) left. Any
    /// other goes on only if no thread here (`others`) and no waiting child (`takes_ticket`) seems to need the core.
    fn goes_on(&mut self, holds: bool, grace: u32) -> bool
        ensures dispatch { self.new.dispatch ≡ self.old.dispatch }
        ensures same { (self.new.queue ≡ record self.old.queue { lag = self.new.queue.lag }) × (self.new.slices ≡ self.old.slices) }
        ensures reads { IsTrue result → self.new.queue.lag.unread ≡ 0 }
        ensures lag { (self.new.queue.lag.untended ≡ self.old.queue.lag.untended) × (self.new.queue.lag.most ≡ self.old.queue.lag.most) }
        ensures grace { IsTrue result → holds ≡ true → 0 < grace }
    {
        if holds && grace == 0 {
            return false;
        }
        let others = self.queue.is_any() || self.shared.hints().is_any(self.core);
        if self.queue.lag.is_stopped(self.shared) || others && !holds {
            return false;
        }
        let takes_ticket = !holds && self.dispatch.may_take_ticket();
        policy::may_go_on(self.dispatch.look(), holds, others, takes_ticket)
    }

    /// Runs and reports one slice of at most `most` steps of the current thread, and returns why it ended.
    fn slice(&mut self, most: u32) -> Result<SliceEnd, Halt>
        requires looked { HasLooked self.old.queue }
        requires most { most ≤ self.old.queue.lag.most }
        ensures dispatch { self.new.dispatch ≡ self.old.dispatch }
        ensures number { self.new.slices ≡ min (self.old.slices + 1) u64.MAX }
        ensures others { (self.new.queue.scan ≡ self.old.queue.scan) × (self.new.queue.lag.most ≡ self.old.queue.lag.most) }
    {
        let nth = self.slices;
        self.slices = nth.saturating_add(1);
        self.dispatch.told(WorkerEvent::Begins(nth));
        let (made, end) = self.spend(most)?;
        self.dispatch.told(WorkerEvent::Sliced(made, end));
        // Counts the slice after reporting it, so that an order that is due by this count is reported later.
        self.shared.count_slice(self.core);
        Ok(end)
    }

    /// Runs at most `most` steps of the current thread, and makes the delayed wakes of other workers when they are due.
    /// Returns the number of steps made, and how the slice ends.
    ///
    /// Each call of `advance` gets the steps until wakes are due (`stretch`). A thread that releases a lock gets few
    /// more steps if this worker runs a lock's next holder next, since others may wait for that lock.
    fn spend(&mut self, most: u32) -> Result<(u32, SliceEnd), Halt>
        requires looked { HasLooked self.old.queue }
        requires most { most ≤ self.old.queue.lag.most }
        ensures dispatch { self.new.dispatch ≡ self.old.dispatch }
        ensures steps { IfOk result (λ spent. spent.0 ≤ most) }
        ensures counted { IfOk result (λ spent. (self.new.queue.lag.unread ≡ spent.0) × (self.new.queue.lag.untended ≡ spent.0)) }
        ensures others { (self.new.slices ≡ self.old.slices) × (self.new.queue.scan ≡ self.old.queue.scan) × (self.new.queue.lag.most ≡ self.old.queue.lag.most) }
    {
        self.queue.begin_slice();
        let mut left = most;
        let mut made = 0;
        for _ in 0..most {
            if left == 0 {
                break;
            }
            let stretch = self.queue.stretch(left);
            let mut unused = stretch;
            let stop = self.dispatch.advance(&mut self.backoff, &mut unused)?;
            let steps = stretch - unused;
            left -= steps;
            made += steps;
            self.queue.lag.add(steps);
            // Counts the steps before handling `stop`, so that a wake for a child posted just now is delayed for its
            // full time.
            if self.queue.spend(steps) {
                tell_all(&mut self.queue, self.shared);
            }
            match stop {
                ThreadStop::Goes => {}
                ThreadStop::Posted(post) => {
                    posted(&mut self.queue, self.shared, self.core, post);
                }
                ThreadStop::Spilled => self.dispatch.told(WorkerEvent::Spilled),
                ThreadStop::Wakes(id) => {
                    self.wake(id, Cause::IsServed);
                    left = policy::left_past_free(left, self.queue.has_next());
                }
                ThreadStop::Ends => return Ok((made, SliceEnd::Ended)),
                ThreadStop::Blocks => return Ok((made, SliceEnd::AwaitsChild)),
                ThreadStop::Waits(number) => return Ok((made, SliceEnd::Awaits(number))),
            }
        }
        tell_all(&mut self.queue, self.shared);
        Ok((made, SliceEnd::GoesOn))
    }
}
