//! A worker's access to the pool's table, by which it takes, runs and puts back jobs. Between two calls, the seat (the
//! right to use the table) holds the current job, if there is one, and nothing else.
ghost use Rattle.std.specs.Prelude.{◌≡◌, ◌<◌, ◌≤◌, IfSome, false, max};

use crate::job::PoolJob;
use crate::place::{place_oldest, post_oldest};
use crate::pool::Pool;
use crate::spawned::{Ended, Spawned};
use crate::stack::JobStop;
use crate::worker::{WorkerState, disowned};
use arachne_arbiter::Backoff;
use arachne_contexts::{Contexts, Held, Moved, Taken, Woken};
use arachne_core::{MarkWord, OccWord, Place, Rest, ThreadId};
use arachne_workers::{Dispatch, Grip, Halt, ThreadStop, TicketResult, WorkerEvent, is_drained};
use std::marker::Model;
use std::mem::replace;
use std::sync::Wait;
use std::sync::atomic::Ordering;

/// A worker's access to the pool's table. Unless `is_broken` is true, the only job that the worker has taken out of the
/// table is the current one, in `held`.
#[derive(Drop)]
pub(crate) struct Seat<'a, H, J: PoolJob, C: Contexts<Spawned<J>>> {
    pub(crate) rt: &'a H,
    pub(crate) pool: &'a Pool<C>,
    pub(crate) core: u8,
    /// True in `Pool::work`, which may wait; `Pool::turn` never does.
    pub(crate) works: bool,
    /// True if the table has rejected a slot or a job that it had given to this worker, which must then stop. Also true
    /// while a job is put into a slot, so that it stays true if that fails.
    pub(crate) is_broken: bool,
    pub(crate) seat: C::Seat,
    pub(crate) held: Option<Held<Spawned<J>, C::Hold>>,
    /// The state, ready or blocked, in which the current job goes back to the table.
    pub(crate) rests_as: Rest,
    /// True if the worker has begun to run a job since it last looked for jobs of other cores.
    pub(crate) has_taken: bool,
    pub(crate) state: WorkerState<J>,
}

impl<'a, H, J: PoolJob, C: Contexts<Spawned<J>>> Model for Seat<'a, H, J, C> {
    ghost use Rattle.std.specs.Prelude.{◌≡◌, ◌<◌, false};
    ghost use Rattle.arachne_pool.specs.Grounds.{Ground, ground_at, in_hand};
    ghost use Rattle.arachne_pool.specs.Workers.{IsArbiterFor};

    ghost Value = { Ground C };

    ghost view = { λ s. ground_at s.pool.now.table s.pool.now.cores };

    ghost invariant = { λ s. (s.core < s.pool.now.cores) × C.sits s.pool.now.table s.seat × IsArbiterFor s.pool.now.cores s.state.orders
        × (s.is_broken ≡ false → C.has s.pool.now.table s.seat (in_hand (λ job. job.tag) s.held)) };
}

impl<'a, H: Wait, J: PoolJob, C: Contexts<Spawned<J>>> Dispatch for Seat<'a, H, J, C> {
    ghost largest_quantum = { λ _. max 1 J.most_steps };

    #[inline(always)]
    fn take(&mut self, place: Place) -> Grip {
        if !self.pool.has_place(place) || self.held.is_some() || self.is_broken {
            return Grip::None;
        }
        let table = &self.pool.table;
        match table.take(self.rt, &mut self.seat, place.core, place.index) {
            Taken::Run(held) => {
                self.held = Some(held);
                self.has_taken = true;
                Grip::Taken
            }
            Taken::NotReady(_) => Grip::None,
            Taken::Lost(_) => Grip::Lost,
        }
    }

    fn quantum(&self) -> u32 {
        match &self.held {
            Some(held) => held.value.stack.job().bound().max(1),
            None => 1,
        }
    }

    /// If the job goes on, also tries to put the oldest child that waits inside its slot into one that is free by now.
    #[inline(always)]
    fn advance(&mut self, _backoff: &mut Backoff, left: &mut u32) -> Result<ThreadStop, Halt> {
        let mut stop = self.go_on(left);
        if stop == JobStop::Sleeps {
            stop = self.fall_asleep(left);
        }
        if stop == JobStop::Ends {
            // `end` counts the job as ended, after the job's slot is free and its result was sent.
            return Ok(ThreadStop::Ends);
        }
        self.rests_as = stop.rest();
        // Reports the spawn before the child gets a slot, since its end must not be counted before its spawn.
        self.pool.live.add(self.core, self.state.take_unreported());
        match stop {
            JobStop::Waits | JobStop::Sleeps => Ok(ThreadStop::Blocks),
            JobStop::LetsGo => Ok(ThreadStop::Goes),
            JobStop::NoMemory => {
                // Uses up the slice: the job tries again in its next one.
                *left = 0;
                self.state.lacks_memory = true;
                Ok(ThreadStop::Goes)
            }
            _ => self.post_oldest(),
        }
    }

    /// Returns false, since jobs have no locks.
    #[inline(always)]
    fn holds(&self) -> bool {
        false
    }

    /// If the table rejects the job, keeps it in `held`, and `leave` then takes the worker's seat away.
    #[inline(always)]
    fn rest(&mut self) -> Result<Rest, Halt> {
        if self.is_broken {
            return Err(disowned());
        }
        let Some(held) = self.held.take() else {
            return Err(disowned());
        };
        let rests_as = self.rests_as;
        let table = &self.pool.table;
        match table.put_back(self.rt, &mut self.seat, held, rests_as) {
            Ok(rested) => Ok(rested.or(rests_as)),
            Err(held) => {
                self.held = Some(held);
                Err(disowned())
            }
        }
    }

    /// Fails if a job in the slot has not ended: `taken_from(0)` then returns `None`.
    #[inline(always)]
    fn end(&mut self, _before: OccWord) -> Result<Option<ThreadId>, Halt> {
        if self.is_broken {
            return Err(disowned());
        }
        let Some(held) = &self.held else {
            return Err(disowned());
        };
        let Some(_) = held.value.taken_from(0) else {
            return Err(disowned());
        };
        let Some(held) = self.held.take() else {
            unreachable!()
        };
        self.state.has_ended = true;
        let table = &self.pool.table;
        match table.finish(self.rt, &mut self.seat, held) {
            Ok(job) => {
                self.pool.room_was_seen();
                Ok(self.count_end(job.leave()))
            }
            // The result is left even if the table doesn't know the place.
            Err(held) => {
                self.is_broken = true;
                self.count_end(held.value.leave());
                Err(disowned())
            }
        }
    }

    /// Returns 0, since this worker keeps no slots claimed for later jobs.
    fn kept(&self) -> usize {
        0
    }

    fn give_one_back(&mut self) -> Result<bool, Halt> {
        Ok(false)
    }

    /// Returns the core's occupancy word, and records in the pool if the core has a slot for another job.
    #[inline(always)]
    fn look(&mut self) -> OccWord {
        let table = &self.pool.table;
        let word = table.look(self.rt, &mut self.seat, self.core);
        let Some(now) = OccWord::from_word(word) else {
            unreachable!()
        };
        if !now.is_closed() && !now.is_exclusive() && now.count() < self.pool.slots {
            self.pool.room_was_seen();
        }
        now
    }

    fn mark_of(&mut self, context: u32) -> Option<MarkWord> {
        if context >= u32::from(self.pool.cores) * u32::from(self.pool.slots) {
            return None;
        }
        let table = &self.pool.table;
        let word = table.look_mark(self.rt, &mut self.seat, context);
        MarkWord::from_word(word)
    }

    fn try_wake(&mut self, id: ThreadId) -> Woken {
        let table = &self.pool.table;
        table.wake(self.rt, &mut self.seat, id)
    }

    /// Moves no job once one has asked for a core for itself, since an empty core must stay empty for such a job.
    fn pull(&mut self, place: Place) -> bool {
        !self.pool.has_exclusive() && self.move_here(place)
    }

    /// A ticket is a job in the queue `near`, or a job that can be moved here from another core. Looks for the latter
    /// only if the worker has begun to run no job since it last looked. Also returns true if the current job must be
    /// put back: after one slice in `Pool::turn`, and if memory was refused, so that the call soon returns this.
    #[inline(always)]
    fn may_take_ticket(&mut self) -> bool {
        if self.held.is_some() && (!self.works || self.state.lacks_memory) {
            // The current job has used its slice, so other jobs must run.
            return true;
        }
        if !self.state.near.is_empty() && self.pool.has_room() {
            return true;
        }
        self.held.is_none() && !replace(&mut self.has_taken, false) && self.is_any_waiting()
    }

    /// Returns `Gone` also if a job of `near` was put on another core, or a job was moved here.
    fn take_ticket(&mut self) -> Result<TicketResult, Halt> {
        if replace(&mut self.is_broken, true) {
            return Err(disowned());
        }
        let posted = place_oldest::<H, J, C>(self.rt, self.pool, &mut self.seat, &mut self.state)?;
        self.is_broken = false;
        Ok(match posted {
            Some(posted) => match posted.tell_unless_on(self.core, &self.pool.shared) {
                Some(post) => TicketResult::Posted(post),
                None => TicketResult::Gone,
            },
            None if self.fetch() => TicketResult::Gone,
            None => TicketResult::None,
        })
    }

    fn tend(&mut self) -> (Option<usize>, u64) {
        let pool = self.pool;
        let cores = pool.cores::<H, Spawned<J>>(self.rt);
        let (parking, slices) = (pool.shared.parking(), pool.shared.slices());
        match &mut self.state.orders {
            Some(orders) => orders.tend(&cores, &mut self.seat, parking, slices),
            None => (None, 0),
        }
    }

    #[inline(always)]
    fn has_orders(&self) -> bool {
        match &self.state.orders {
            Some(orders) => orders.has_any(),
            None => false,
        }
    }

    fn is_waited_for(&self) -> bool {
        if !self.works || !self.state.near.is_empty() {
            return true;
        }
        match &self.state.orders {
            Some(orders) => !orders.are_over(),
            None => false,
        }
    }

    fn is_drained(&mut self) -> bool {
        is_drained(self.look())
    }

    #[inline(always)]
    fn told(&self, event: WorkerEvent) {
        if matches!(event, WorkerEvent::Overslept) {
            self.pool.overslept.fetch_add(1, Ordering::SeqCst);
        }
    }
}

impl<'a, H: Wait, J: PoolJob, C: Contexts<Spawned<J>>> Seat<'a, H, J, C> {
    /// Runs the current job for at most `left` steps, and detaches the children that an ended job never joined. If it
    /// returns `LetsGo`, there are more such children, or memory for them was refused: the next call goes on with them.
    #[inline(always)]
    fn go_on(&mut self, left: &mut u32) -> JobStop
        ensures dispatch { self.new ≡ self.old }
        ensures left { left.new ≤ left.old }
    {
        let Some(held) = &mut self.held else {
            // Never after `take`; `rest` then fails with `Token`.
            return JobStop::Waits;
        };
        let state = &mut self.state;
        let may_post = self.pool.has_room();
        let stack = &mut held.value.stack;
        let stop = stack.slice(&mut state.cells, &mut state.tally, left, may_post);
        if stop != JobStop::LetsGo || !state.let_go(&mut held.value) {
            return stop;
        }
        let stack = &mut held.value.stack;
        stack.slice(&mut state.cells, &mut state.tally, left, may_post)
    }

    /// Reports the worker's counts, with this end, and returns the ended job's parent, if it must be woken.
    #[inline(always)]
    fn count_end(&mut self, ended: Ended<J>) -> Option<ThreadId>
        ensures dispatch { self.new ≡ self.old }
        ensures parent { result ≡ ended.parent }
    {
        self.pool.live.add(self.core, self.state.take_unreported());
        ended.parent
    }

    /// Puts the oldest child that waits inside the current job's slot into a slot of its own, if one is free.
    #[inline(always)]
    fn post_oldest(&mut self) -> Result<ThreadStop, Halt>
        ensures { self.new ≡ self.old }
    {
        if self.is_broken {
            return Err(disowned());
        }
        let Some(held) = &mut self.held else {
            return Err(disowned());
        };
        self.is_broken = true;
        let state = &mut self.state;
        let posted = post_oldest::<H, J, C>(self.rt, self.pool, &mut self.seat, state, held)?;
        self.is_broken = false;
        let Some(posted) = posted else {
            return Ok(ThreadStop::Goes);
        };
        match posted.tell_unless_on(self.core, &self.pool.shared) {
            Some(post) => Ok(ThreadStop::Posted(post)),
            None => Ok(ThreadStop::Goes),
        }
    }

    /// Gives the current job, which is about to sleep, the id by which `Pool::wake` wakes it.
    ///
    /// If a child waits inside the job's slot, the job goes on instead, so that its worker can try again to give the
    /// child a slot.
    fn fall_asleep(&self, left: &mut u32) -> JobStop
        ensures { left.new ≤ left.old }
    {
        let Some(held) = &self.held else {
            // Never after `take`; `rest` then fails with `Token`.
            return JobStop::Waits;
        };
        if held.value.stack.links.aside() > 0 {
            *left = 0;
            return JobStop::Goes;
        }
        held.value.stack.job().sleeps_as(held.id());
        JobStop::Sleeps
    }

    fn is_any_waiting(&self) -> bool {
        for core in 0..self.pool.cores {
            if self.waiting_on(core).is_some() {
                return true;
            }
        }
        false
    }

    /// Returns true if it has moved a job here from another core whose worker has not reached the job yet. Then hints
    /// all occupied slots of this core, since the table doesn't say which one the job got.
    fn fetch(&mut self) -> bool
        ensures { self.new ≡ self.old }
    {
        if self.held.is_some() {
            return false;
        }
        for core in 0..self.pool.cores {
            if let Some(place) = self.waiting_on(core)
                && self.move_here(place)
            {
                let now = self.pool.glance::<H, J>(self.rt, self.core);
                self.pool.shared.hints().hint(self.core, now.mask());
                return true;
            }
        }
        false
    }

    /// Moves the job in slot `place` here, and returns true, unless it runs or has its core for itself.
    fn move_here(&mut self, place: Place) -> bool
        ensures { self.new ≡ self.old }
    {
        if place.core == self.core || !self.pool.has_place(place) {
            return false;
        }
        let table = &self.pool.table;
        let moved = table.move_one(self.rt, &mut self.seat, place, self.core);
        matches!(moved, Moved::Moved)
    }

    /// Returns a slot of `core` in which a job may be ready, if that core's worker is awake and has not reached it yet.
    ///
    /// In `Pool::turn`, returns `None` if no kernel thread has called `work` for `core`, since the caller may run that
    /// core's jobs itself.
    fn waiting_on(&self, core: u8) -> Option<Place>
        requires { core < self.now.cores }
    {
        let worked = self.pool.worked.load(Ordering::SeqCst) >> u32::from(core) & 1 != 0;
        if core == self.core || !self.works && !worked {
            return None;
        }
        let word = self.pool.shared.hints().word(core)?;
        let seen = word.load(Ordering::SeqCst);
        // The lowest bit is set while the core's worker sleeps. The other bits stand for the indexes of the slots.
        let waiting = seen >> 1 & self.pool.glance::<H, J>(self.rt, core).mask();
        if seen & 1 != 0 || waiting == 0 {
            return None;
        }
        let index = u8::try_from(waiting.trailing_zeros()).ok()?;
        Some(Place { core, index })
    }
}
