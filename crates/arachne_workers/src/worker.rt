//! The worker's loop: runs ready threads, opens and closes cores, waits and parks. Before each slice, it reads the stop
//! word and carries out due orders by `queue.lag`, which counts the steps between two such looks.
ghost use Rattle.std.specs.Prelude.{◌≡◌, IsOk};
ghost use Rattle.arachne_workers.specs.RunQueues.{LooksWithin};

use crate::dispatch::{Dispatch, Grip, Halt, TicketResult, WorkerEvent, give_all_back, thin_out};
use crate::policy;
use crate::queue::RunQueue;
use crate::shared::SharedWords;
use crate::waiting::stay_awake;
use crate::wake::{posted, tell_all};
use arachne_arbiter::Backoff;
use arachne_core::Place;
use std::sync::Wait;
use std::time::{Clock, Duration};

/// The kernel thread of one core, with what it needs to find, run and wait for threads.
#[derive(Drop)]
pub struct CoreWorker<'a, H, D> {
    pub rt: &'a H,
    pub shared: &'a SharedWords,
    pub core: u8,
    /// The number of thread slots of the core.
    pub slots: u8,
    /// True if the worker is allowed to run a thread that was granted a lock and stays in a slot of another core.
    pub helps: bool,
    pub queue: RunQueue,
    /// The number of slices that this worker has begun.
    pub slices: u64,
    /// Decides if the worker may yield while it waits: after a yield that took long, not until it has found work often.
    pub backoff: Backoff,
    pub dispatch: D,
}

impl<'a, H: Wait + Clock, D: Dispatch> CoreWorker<'a, H, D> {
    /// Runs threads until all workers must stop, and then frees the slots that it keeps claimed for later threads.
    pub fn work(&mut self) -> Result<(), Halt>
        ensures dispatch { self.new.dispatch ≡ self.old.dispatch }
        ensures heeds { LooksWithin (D.largest_quantum self.old.dispatch) self.old.queue self.new.queue }
    {
        // The number of rounds (passes of this loop) in a row that have found nothing.
        let mut idle: u32 = 0;
        for _ in self.rt.forever() {
            if self.shared.is_stopped() {
                return give_all_back(&mut self.dispatch);
            }
            if self.round(idle)? {
                idle = 0;
            } else {
                self.rest_for(idle);
                idle = idle.saturating_add(1);
            }
        }
        unreachable!()
    }

    /// Makes one pass of the loop: runs each thread in the slots recorded as maybe ready, then gives a slot to a child
    /// that waits for one. Returns true if there was anything to do. `idle` is the number of passes in a row before
    /// this one that have found nothing.
    ///
    /// Kept slots are first freed if they aren't needed. In some rounds the scan visits all occupied slots, and in some
    /// that find nothing (`looks`), `scan_all` does so, since a ready thread may be in a slot that is not recorded.
    pub fn round(&mut self, idle: u32) -> Result<bool, Halt>
        ensures dispatch { self.new.dispatch ≡ self.old.dispatch }
        ensures heeds { LooksWithin (D.largest_quantum self.old.dispatch) self.old.queue self.new.queue }
    {
        let sleeps = policy::sleeps(idle, self.backoff.may_yield());
        let looks = policy::looks_at_all(idle, sleeps);
        // Read before `take`, which clears the bit for a worker that sleeps: if it is still set, the sleep timed out
        // without a wake.
        let overslept = sleeps && self.shared.hints().is_asleep(self.core);
        thin_out(&mut self.dispatch, self.slots)?;
        let mut indexes = self.shared.hints().take(self.core);
        if self.queue.take_look_due() {
            indexes |= self.dispatch.look().mask();
        }
        self.queue.begin_scan(indexes);
        let ran = self.run_each()?;
        let took = self.take_ticket()?;
        let found = ran || took || looks && self.scan_all()?;
        if found {
            self.backoff.found();
            if overslept {
                self.dispatch.told(WorkerEvent::Overslept);
            }
        }
        Ok(found)
    }

    /// Carries out the orders that are due to open or close cores, and then spins, yields or sleeps once. `idle` is the
    /// number of passes of the loop in a row that found nothing, not counting the last one.
    pub fn rest_for(&mut self, idle: u32)
        ensures dispatch { self.new.dispatch ≡ self.old.dispatch }
        ensures same { (self.new.queue ≡ record self.old.queue { lag = self.new.queue.lag }) × (self.new.slices ≡ self.old.slices) }
        ensures lag { self.new.queue.lag.most ≡ self.old.queue.lag.most }
    {
        // Called before each wait, since nobody wakes this worker for an order that becomes due.
        self.tend();
        if policy::sleeps(idle, self.backoff.may_yield()) {
            let spell = Duration::from_micros(policy::sleep_of(self.dispatch.is_waited_for()));
            self.shared.sleep(self.rt, self.core, spell);
        } else {
            let hints = self.shared.hints();
            stay_awake(self.rt, &mut self.backoff, hints, self.core, idle);
        }
    }

    /// Runs each ready thread of the core, including those in slots not recorded as ready. If there is none, frees the
    /// slots claimed for later threads, makes all delayed wakes, and parks if the core is closed and empty and no order
    /// or thread waits for this worker. Returns true if a thread was ready, or the worker was parked.
    fn scan_all(&mut self) -> Result<bool, Halt>
        ensures dispatch { self.new.dispatch ≡ self.old.dispatch }
        ensures ended { IsOk result → self.new.queue.scan ≡ 0 }
        ensures heeds { LooksWithin (D.largest_quantum self.old.dispatch) self.old.queue self.new.queue }
    {
        let occupied = self.dispatch.look().mask();
        self.queue.begin_scan(occupied);
        if self.run_each()? {
            return Ok(true);
        }
        // Before each wait: others can't use a slot that this worker keeps, and nobody else makes the wakes that it has
        // delayed.
        give_all_back(&mut self.dispatch)?;
        tell_all(&mut self.queue, self.shared);
        if self.dispatch.is_waited_for() || !self.dispatch.is_drained() {
            return Ok(false);
        }
        self.dispatch.told(WorkerEvent::Parks);
        self.shared.park(self.rt, self.core);
        self.dispatch.told(WorkerEvent::Unparked);
        Ok(true)
    }

    /// Runs each ready thread in the slots of the current scan, and after it those that `Self::next` finds, at most
    /// `MOST_IN_TURN` in all. `waits` is true if the last thread has blocked. Returns true if it has run any.
    fn run_each(&mut self) -> Result<bool, Halt>
        ensures dispatch { self.new.dispatch ≡ self.old.dispatch }
        ensures ended { IsOk result → self.new.queue.scan ≡ 0 }
        ensures heeds { LooksWithin (D.largest_quantum self.old.dispatch) self.old.queue self.new.queue }
    {
        let mut found = false;
        while let Some(index) = self.queue.next_index() {
            let core = self.core;
            let mut next = Some(Place { core, index });
            for _ in 0..policy::MOST_IN_TURN {
                let Some(place) = next else {
                    break;
                };
                if self.queue.lag.is_stopped(self.shared) {
                    break;
                }
                // Before each slice, since an order may have become due since the last slice ended.
                self.tend();
                let mut waits = false;
                match self.dispatch.take(place) {
                    Grip::Taken => {
                        found = true;
                        waits = self.turn(place)?;
                    }
                    Grip::None => {}
                    // A ready thread may still be in the slot, so the next scan tries again.
                    Grip::Lost => self.note(place),
                }
                next = self.next(waits);
            }
            // The thread in this place has not run yet, so the next scan must visit its slot.
            if let Some(place) = next {
                self.note(place);
            }
        }
        Ok(found)
    }

    /// Gives a waiting child a slot, if the core has a free one, and returns true if a ticket was removed.
    fn take_ticket(&mut self) -> Result<bool, Halt>
        ensures dispatch { self.new.dispatch ≡ self.old.dispatch }
        ensures others { (self.new.queue.scan ≡ self.old.queue.scan) × (self.new.queue.next ≡ self.old.queue.next) × (self.new.queue.lag ≡ self.old.queue.lag) × (self.new.slices ≡ self.old.slices) }
    {
        if !self.dispatch.may_take_ticket() {
            return Ok(false);
        }
        match self.dispatch.take_ticket()? {
            TicketResult::None => return Ok(false),
            TicketResult::Gone => self.dispatch.told(WorkerEvent::Ticket(false)),
            TicketResult::Posted(post) => {
                self.dispatch.told(WorkerEvent::Ticket(true));
                posted(&mut self.queue, self.shared, self.core, post);
            }
        }
        Ok(true)
    }

    /// Carries out the orders that are due to open or close cores, if that is this worker's task.
    #[inline(always)]
    pub fn tend(&mut self)
        ensures dispatch { self.new.dispatch ≡ self.old.dispatch }
        ensures same { (self.new.queue ≡ record self.old.queue { lag = self.new.queue.lag }) × (self.new.slices ≡ self.old.slices) }
        ensures tended { self.new.queue.lag.untended ≡ 0 }
        ensures lag { (self.new.queue.lag.unread ≡ self.old.queue.lag.unread) × (self.new.queue.lag.most ≡ self.old.queue.lag.most) }
    {
        if self.queue.lag.has_orders(&self.dispatch) {
            self.apply_orders();
        }
    }

    /// Carries out due orders. Wakes all workers if there were any, and those to whose cores it has moved threads.
    fn apply_orders(&mut self)
        ensures dispatch { self.new.dispatch ≡ self.old.dispatch }
        ensures same { (self.new.queue ≡ record self.old.queue { lag = self.new.queue.lag }) × (self.new.slices ≡ self.old.slices) }
        ensures tended { self.new.queue.lag.untended ≡ 0 }
        ensures lag { (self.new.queue.lag.unread ≡ self.old.queue.lag.unread) × (self.new.queue.lag.most ≡ self.old.queue.lag.most) }
    {
        let (applied, receivers) = self.queue.lag.tend(&mut self.dispatch);
        if let Some(count) = applied {
            self.dispatch.told(WorkerEvent::Applied(count));
            // The worker of a core that was closed may sleep, and must check if it can park.
            self.shared.hint_cores(u64::MAX);
        }
        if receivers != 0 {
            self.shared.hint_cores(receivers);
            self.dispatch.told(WorkerEvent::MovedAway(receivers));
        }
    }
}
