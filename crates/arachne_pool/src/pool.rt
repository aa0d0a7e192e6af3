//! The pool: the data that all its workers share.
ghost use Rattle.std.specs.Prelude.{◌≡◌, ◌<◌, ◌≤◌, [], IfOk, IsTrue, Some};
ghost use Rattle.arachne_core.specs.declared.layout.TheConstants.{CORES, SLOTS};
ghost use Rattle.arachne_policy.specs.Orders.{AreInOrder};
ghost use Rattle.arachne_pool.specs.Leftover.{IsWhole};

use crate::job::PoolJob;
use crate::spawned::Spawned;
use crate::tally::Live;
use crate::worker::Worker;
use arachne_arbiter::{Arbiter, Cores};
use arachne_contexts::{Contexts, Seats};
use arachne_core::{CORES, OccWord, Place, SLOTS};
use arachne_policy::CoreOrder;
use arachne_workers::SharedWords;
use crossbeam_utils::CachePadded;
use std::alloc::{AllocError, Global};
use std::marker::PhantomData;
use std::sync::Wait;
use std::sync::atomic::{AtomicU64, Ordering};

/// A pool of jobs, which its workers share.
#[derive(Drop)]
pub struct Pool<C: Seats> {
    /// The context table, which has the slots and the jobs in them. It has a context (record of one job) for each slot.
    pub table: C,
    /// The number of cores, 1 to 64.
    pub cores: u8,
    /// The number of slots (places for one job each) of each core, 1 to 56.
    pub slots: u8,
    /// The words by which workers are signalled, sleep, park and stop.
    pub(crate) shared: SharedWords,
    pub(crate) live: Live,
    /// 1 if a slot may be free, and 0 after a search has found none.
    pub(crate) room: CachePadded<AtomicU64>,
    /// 1 once a job has asked for a core for itself, and never 0 again.
    pub(crate) exclusive: AtomicU64,
    open: AtomicU64,
    /// The cores for which a kernel thread has called `work`, one bit each.
    pub(crate) worked: AtomicU64,
    pub(crate) overslept: AtomicU64,
    ghost counted: { C.core_count table ≡ cores },
    ghost few: { cores ≤ CORES },
    ghost placed: { C.slot_count table ≡ slots },
    ghost few_slots: { slots ≤ SLOTS },
    ghost told: { shared ≡ cores },
}

impl<C: Seats + Drop> Pool<C> {
    ghost use Rattle.arachne_pool.specs.Workers.{HasMadeNoStep, HasNoCore, IsWorkerOf};

    /// Creates a pool without jobs, and its first worker. `orders` says which cores are closed and opened while the
    /// pool works, and when. The generations of contexts and the worker's random generator begin with 0. Returns an
    /// error if memory is refused.
    pub fn new<J: PoolJob>(
        alloc: Global,
        cores: u8,
        slots: u8,
        orders: Vec<CoreOrder>,
    ) -> Result<(Pool<C>, Worker<C::Seat, J>), AllocError>
        requires some { 1 ≤ cores }
        requires most { cores ≤ CORES }
        requires some_slots { 1 ≤ slots }
        requires most_slots { slots ≤ SLOTS }
        requires orders { AreInOrder cores orders.items }
        ensures cores { IfOk result (λ made. made.0.cores ≡ cores) }
        ensures slots { IfOk result (λ made. made.0.slots ≡ slots) }
        ensures worker { IfOk result (λ made. IsWorkerOf made.0 made.1) }
        ensures whole { IfOk result (λ made. IsWhole C.weight made.1.seat) }
        ensures tally { IfOk result (λ made. (made.1.tally.spawned ≡ 0) × (made.1.tally.ended ≡ 0)) }
        ensures near { IfOk result (λ made. made.1.waiting ≡ []) }
        ensures orders { IfOk result (λ made. made.1.arbiter ≡ Some (record { list = orders.items; cores = cores; applied = 0 })) }
        ensures core { IfOk result (λ made. HasNoCore made.0.cores made.1) }
        ensures lag { IfOk result (λ made. HasMadeNoStep made.1) }
    {
        let orders = Arbiter::new(alloc, orders, cores)?;
        let live = Live::new(alloc, cores)?;
        let shared = SharedWords::new(alloc, cores)?;
        let (table, seat) = C::new(alloc, cores, slots, 0)?;
        let pool = Pool {
            table,
            cores,
            slots,
            shared,
            live,
            room: CachePadded::new(AtomicU64::new(1)),
            exclusive: AtomicU64::new(0),
            open: AtomicU64::new(0),
            worked: AtomicU64::new(0),
            overslept: AtomicU64::new(0),
        };
        let mut worker = Worker::new(alloc, Some(seat), 0);
        worker.state.orders = Some(orders);
        Ok((pool, worker))
    }
}

impl<C: Seats> Pool<C> {
    /// Returns the number of unfinished jobs, as far as the workers have reported their counts.
    ///
    /// If the number is 0, all jobs have ended, each handle has its result, and all slots are free.
    pub fn live(&self) -> u64 {
        self.live.count()
    }

    /// Returns true if the worker of `core` sleeps, or has not looked for work since its sleep timed out. A caller that
    /// has work for such a worker must wake it. A parked worker (one whose core is closed) doesn't count as asleep.
    pub fn is_asleep(&self, core: u8) -> bool {
        self.shared.hints().is_asleep(core)
    }

    /// Returns how often a worker slept until its timeout although there was work that nobody had signalled, or all
    /// jobs had ended. A high number shows that a signal is missing. A few such sleeps are normal while jobs wait for a
    /// slot, since nobody signals a slot that becomes free.
    pub fn overslept(&self) -> u64 {
        self.overslept.load(Ordering::SeqCst)
    }

    /// Makes each worker return after its slice (a few steps of a job), and wakes workers that sleep or are parked.
    pub fn stop(&self) {
        self.shared.stop();
    }

    /// Returns true if the pool was stopped, by `stop` or by a fault.
    pub fn is_stopped(&self) -> bool {
        self.shared.is_stopped()
    }

    /// Keeps the pool open, so that `work` doesn't return when all jobs have ended. A call of `finish` ends the effect.
    pub fn keep_open(&self) {
        self.open.store(1, Ordering::SeqCst);
    }

    /// Ends the effect of `keep_open`, so that `work` returns when all jobs have ended. Don't call `spawn` later.
    pub fn finish(&self) {
        self.open.store(0, Ordering::SeqCst);
        // The last job may have ended before this call, and then nobody else wakes the workers.
        self.wake_if_over();
    }

    pub(crate) fn is_over(&self) -> bool {
        // Reads `open` first, so that a job that was spawned before a call of `finish` is counted.
        self.open.load(Ordering::SeqCst) == 0 && self.live.count() == 0
    }

    /// Wakes all workers, so that they return, if all jobs have ended and the pool is not kept open. A hint, for any
    /// slot, wakes a worker that sleeps, but not one that is parked.
    pub(crate) fn wake_if_over(&self) {
        if self.is_over() {
            for core in 0..self.cores {
                self.shared.hint(Place { core, index: 0 });
            }
            self.shared.parking().unpark_all();
        }
    }

    #[inline(always)]
    pub(crate) fn has_place(&self, place: Place) -> bool
        ensures { IsTrue result → (place.core < self.now.cores) × (place.index < self.now.slots) }
    {
        place.core < self.cores && place.index < self.slots
    }

    #[inline(always)]
    pub(crate) fn has_room(&self) -> bool {
        self.room.load(Ordering::SeqCst) != 0
    }

    /// Sets `room` to 1. Reads it first, since a store would slow down the other cores, which read it often.
    #[inline(always)]
    pub(crate) fn room_was_seen(&self) {
        if !self.has_room() {
            self.room.store(1, Ordering::SeqCst);
        }
    }

    pub(crate) fn has_exclusive(&self) -> bool {
        self.exclusive.load(Ordering::SeqCst) != 0
    }

    /// Returns the occupancy word of `core` (a bit for each occupied slot). It is only a hint, as no seat is used.
    pub(crate) fn glance<H: Wait, J: PoolJob>(&self, rt: &H, core: u8) -> OccWord
    where
        C: Contexts<Spawned<J>>,
        requires { core < self.now.cores }
    {
        OccWord::from_word(self.table.glance(rt, core)).unwrap_or(OccWord::empty())
    }

    /// Returns the table with its numbers of cores and slots, by which an arbiter claims slots and carries out orders.
    pub(crate) fn cores<'a, H, T>(&'a self, rt: &'a H) -> Cores<'a, H, T, C>
        ensures table { result.table.now ≡ self.now.table }
        ensures count { result.count ≡ self.now.cores }
    {
        Cores {
            rt,
            table: &self.table,
            count: self.cores,
            slots: self.slots,
            of: PhantomData,
        }
    }
}
