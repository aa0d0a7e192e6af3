//! The value to which C's handle on an executor points.
ghost use Rattle.std.specs.Prelude.{◌≡◌, ◌↔◌, ℕ, ◌+◌, ◌*◌, ◌/◌, ◌^◌, ◌<◌, ◌≤◌, IsTrue, IsFalse, IfOk, IfErr, IfSome};
ghost use Rattle.std.specs.declared.option.Option.TheVariants.{None, Some};
ghost use Rattle.std.specs.Prelude.{◌⊎◌, vec_len};
ghost use Rattle.arachne_weights.specs.Weight.{whole};
ghost use Rattle.arachne_exec.specs.Changes.{rising};
ghost use Rattle.arachne_exec.specs.Calls.{HasFoundNone, HasFoundSome};
ghost use Rattle.arachne_exec.specs.Layout.{summary_at, ready_at};
ghost use Rattle.arachne_exec_c.specs.Executing.{Exec, HasBlock, HasShard, IsEmptyHanded, IsIdle, IsNew, IsNoWorker, IsWorker, now, lowest_place, without_lowest, first_of, second_of, joined_of};
ghost use Rattle.arachne_exec_c.specs.Codes.{refused, no_memory};
ghost use Rattle.arachne_exec_c.specs.ExecEnd.{HasEnded};
ghost use Rattle.arachne_exec_c.specs.ExecTold.{Spawns, SpawnsHere, LooksAt, Takes, TakesMany, Starts, GoesOn, Rests, Yields, Ends, Wakes, WakesHere, IsGiven, IsTaken, HasLeft, MayTake, MayGoOn};

use crate::codes::{NO_MEMORY, REFUSED};
use arachne_exec::{
    BLOCKS_PER_SHARD, ExecSeat, Executor, HeldJob, JobRested, JobSpawned, JobWoken, Next,
    SpawnedHere, WokenHere,
};
use std::alloc::{AllocError, Global};
use std::marker::Model;
use std::sync::Arc;

/// The value to which C's handle on an executor points: a seat (a thread's right to call it), and the jobs it holds.
///
/// Each call writes to this value, so 64 unused bytes keep it off the cache lines of other handles' values.
#[derive(Drop)]
#[repr(C)]
pub struct Executing {
    executor: Arc<Executor>,
    seat: ExecSeat,
    /// The slot of the job that calls such as `arachne_exec_finish` concern: the job that the seat took last.
    hand: Option<usize>,
    /// A bit for each slot of its block, besides the one in `hand`, whose job the seat also holds.
    more: u64,
    worker: usize,
    apart: [u64; 8],
}

impl Model for Executing {
    ghost use Rattle.std.specs.Arc.{arc_value};
    ghost use Rattle.arachne_exec_c.specs.Executing.{Exec, IsKept};

    ghost Value = { Exec };

    ghost view = { λ e. record { executor = arc_value e.executor; seat = e.seat; hand = e.hand; more = e.more; worker = e.worker } };

    ghost invariant = { λ e. IsKept (record { executor = arc_value e.executor; seat = e.seat; hand = e.hand; more = e.more; worker = e.worker }) };
}

fn in_hand(block: usize, word: u64) -> (Option<usize>, u64)
    requires { block < 2 ^ 58 }
    ensures { result ≡ (lowest_place block word, without_lowest word) }
{
    if word == 0 {
        return (None, 0);
    }
    let index = word.trailing_zeros();
    (
        Some(64 * block + index as usize),
        word & (u64::MAX - (1 << index)),
    )
}

impl Executing {
    pub(crate) fn new(alloc: Global, shards: usize) -> Result<Executing, AllocError>
        requires { shards ≤ 256 }
        ensures { IfOk result (IsNew shards) }
    {
        let (executor, seat) = Executor::new(alloc, shards)?;
        let executor = Arc::new(alloc, executor)?;
        Ok(Executing {
            executor,
            seat,
            hand: None,
            more: 0,
            worker: 0,
            apart: [0; 8],
        })
    }

    pub(crate) fn has_block(&self, block: usize) -> bool
        ensures { IsTrue result ↔ HasBlock block self.now }
    {
        block / BLOCKS_PER_SHARD < self.executor.shards()
    }

    pub(crate) fn has_shard(&self, shard: usize) -> bool
        ensures { IsTrue result ↔ HasShard shard self.now }
    {
        shard < self.executor.shards()
    }

    pub(crate) fn is_empty_handed(&self) -> bool
        ensures { IsTrue result ↔ IsEmptyHanded self.now }
    {
        self.hand.is_none()
    }

    pub(crate) fn is_worker(&self) -> bool
        ensures { IsTrue result ↔ IsWorker self.now }
    {
        self.worker > 0
    }

    pub(crate) fn hand(&self) -> Option<usize>
        ensures { result ≡ self.now.hand }
    {
        self.hand
    }

    pub(crate) fn spawn(&mut self, block: usize, job: u64) -> JobSpawned
        requires { HasBlock block self.old }
        ensures { Spawns block job self.old self.new result }
    {
        self.executor.spawn(&mut self.seat, block, job)
    }

    pub(crate) fn spawn_here(&mut self, block: usize, job: u64) -> SpawnedHere
        requires { MayTake block self.old }
        ensures { SpawnsHere block job self.old self.new result }
    {
        let spawned = self.executor.spawn_here(&mut self.seat, block, job);
        if let SpawnedHere::Held(job) = &spawned {
            self.hand = Some(job.place);
        }
        spawned
    }

    pub(crate) fn shown(&mut self, shard: usize) -> u64
        requires { HasShard shard self.old }
        ensures { LooksAt (summary_at shard) self.old self.new result }
    {
        self.executor.shown(&mut self.seat, shard)
    }

    pub(crate) fn ready(&mut self, block: usize) -> u64
        requires { HasBlock block self.old }
        ensures { LooksAt (ready_at block) self.old self.new result }
    {
        self.executor.ready(&mut self.seat, block)
    }

    pub(crate) fn take(&mut self, block: usize) -> Option<HeldJob>
        requires { MayTake block self.old }
        ensures { Takes block self.old self.new result }
    {
        let taken = self.executor.take(&mut self.seat, block);
        if let Some(job) = &taken {
            self.hand = Some(job.place);
        }
        taken
    }

    pub(crate) fn take_many(&mut self, block: usize, most: u32) -> u64
        requires { MayTake block self.old }
        ensures { TakesMany block most self.old self.new result }
    {
        let _places = self.executor.places();
        let bits = self.executor.take_many(&mut self.seat, block, most);
        (self.hand, self.more) = in_hand(block, bits);
        bits
    }

    pub(crate) fn start(&mut self, place: usize) -> HeldJob
        requires { self.old.hand ≡ Some place }
        ensures { Starts place self.old self.new result }
    {
        self.executor.start(&mut self.seat, place)
    }

    pub(crate) fn next(&mut self) -> Next
        requires { MayGoOn self.old }
        ensures { GoesOn self.old self.new result }
    {
        let next = self.executor.next(&mut self.seat, self.worker - 1);
        if let Next::Run(job) = &next {
            self.hand = Some(job.place);
        }
        next
    }

    pub(crate) fn may_park(&mut self) -> bool
        requires { IsWorker self.old }
        ensures known { self.new ≡ now self.old self.new.seat.known self.old.hand }
        ensures parks { IsTrue result → (worker : ℕ) → self.old.worker ≡ worker + 1 → HasFoundNone self.old.executor.shards worker self.old.seat.known self.new.seat.known }
        ensures stays { IsFalse result → (worker : ℕ) → self.old.worker ≡ worker + 1 → HasFoundSome self.old.executor.shards worker self.old.seat.known self.new.seat.known }
    {
        self.executor.may_park(&mut self.seat, self.worker - 1)
    }

    pub(crate) fn wake_up(&mut self)
        requires { IsWorker self.old }
        ensures known { self.new ≡ now self.old self.new.seat.known self.old.hand }
        ensures risen { (worker : ℕ) → self.old.worker ≡ worker + 1 → (found : ℕ) × (self.new.seat.known ≡ rising worker found self.old.seat.known) }
    {
        self.executor.wake_up(&mut self.seat, self.worker - 1);
    }

    pub(crate) fn rest_ready(&mut self, place: usize) -> bool
        requires { self.old.hand ≡ Some place }
        ensures { Yields place self.old self.new result }
    {
        let unpark = self.executor.rest_ready(&mut self.seat, place);
        (self.hand, self.more) = in_hand(place / 64, self.more);
        unpark
    }

    pub(crate) fn rest_blocked(&mut self, place: usize) -> JobRested
        requires { self.old.hand ≡ Some place }
        ensures { Rests place self.old self.new result }
    {
        let rested = self.executor.rest_blocked(&mut self.seat, place);
        (self.hand, self.more) = in_hand(place / 64, self.more);
        rested
    }

    pub(crate) fn finish(&mut self, place: usize)
        requires { self.old.hand ≡ Some place }
        ensures { Ends place self.old self.new }
    {
        self.executor.finish(&mut self.seat, place);
        (self.hand, self.more) = in_hand(place / 64, self.more);
    }

    pub(crate) fn wake(&mut self, name: u64) -> JobWoken
        ensures { Wakes name self.old self.new result }
    {
        self.executor.wake(&mut self.seat, name)
    }

    pub(crate) fn wake_here(&mut self, name: u64) -> WokenHere
        requires { IsEmptyHanded self.old }
        ensures { WakesHere name self.old self.new result }
    {
        let woken = self.executor.wake_here(&mut self.seat, name);
        if let WokenHere::Held(job) = &woken {
            self.hand = Some(job.place);
        }
        woken
    }

    pub(crate) fn register(&mut self, worker: usize) -> bool
        requires none { IsNoWorker self.old }
        requires worker { worker < 64 }
        ensures registered { IsTrue result → IsGiven worker self.old self.new }
        ensures taken { IsFalse result → IsTaken worker self.old self.new }
    {
        if !self.executor.register(&mut self.seat, worker) {
            return false;
        }
        self.worker = worker + 1;
        true
    }

    pub(crate) fn leave(&mut self)
        requires { IsWorker self.old }
        ensures { HasLeft self.old self.new }
    {
        self.executor.leave(&mut self.seat, self.worker - 1);
        self.worker = 0;
    }

    /// Splits off a seat, or changes nothing and returns an error if the executor's reference count can't grow.
    pub(crate) fn split(&mut self) -> Result<Executing, AllocError>
        ensures ok { IfOk result (λ other. (self.new ≡ first_of self.old) × (other ≡ second_of self.old)) }
        ensures err { IfErr result (λ _. self.new ≡ self.old) }
    {
        let executor = Arc::try_clone(&self.executor)?;
        let seat = self.executor.split(&mut self.seat);
        Ok(Executing {
            executor,
            seat,
            hand: None,
            more: 0,
            worker: 0,
            apart: [0; 8],
        })
    }

    fn may_end(&self) -> bool
        ensures { IsTrue result → IsEmptyHanded self.now × (self.now.seat.weight ≡ whole) }
    {
        self.hand.is_none() && self.executor.is_whole(&self.seat)
    }

    /// Ends the executor, if this seat is the only one and holds no job, and if `room` suffices for one job in each
    /// slot. Otherwise returns the unchanged value with the code for C, REFUSED or NO_MEMORY.
    pub(crate) fn end(self, alloc: Global, room: usize) -> Result<Vec<u64>, (Executing, u32)>
        ensures ended { IfOk result (λ jobs. HasEnded self jobs.items × (vec_len jobs ≤ room)) }
        ensures same { IfErr result (λ back. (back.0 ≡ self) × ((back.1 ≡ refused) ⊎ (back.1 ≡ no_memory))) }
    {
        let places = self.executor.places();
        if room < places || !self.may_end() {
            return Err((self, REFUSED));
        }
        let Ok(list) = Vec::with_capacity(alloc, places) else {
            return Err((self, NO_MEMORY));
        };
        match Arc::try_unwrap(self.executor) {
            Ok(executor) => Ok(executor.close_into(self.seat, list)),
            Err(executor) => Err((Executing { executor, ..self }, REFUSED)),
        }
    }

    pub(crate) fn join(&mut self, other: Executing)
        requires one { other.executor ≡ self.old.executor }
        requires idle { IsIdle other }
        ensures { self.new ≡ joined_of self.old other }
    {
        let Executing { seat, .. } = other;
        self.executor.join_seats(&mut self.seat, seat);
    }
}
