//! The calls that spawn, take, block and end jobs, and make jobs ready.
ghost use Rattle.std.specs.Prelude.{◌≡◌, ℕ, ◌+◌, ◌*◌, ◌%◌, ◌<◌, IsTrue, IsFalse, IfSome, IfNone};
ghost use Rattle.arachne_exec.specs.Layout.{mark_at, name_of};
ghost use Rattle.arachne_exec.specs.Changes.{laying_down, noted, rousing, using_up};
ghost use Rattle.arachne_exec.specs.Seats.{HasNewest, IsNewest};
ghost use Rattle.arachne_exec.specs.Calls.{worker_at, HasSpawned, HasSpawnedHere, HandsSpawned, HasTakenInTurn, HasTakenFrom, HasTakenNone, HasBlocked, HasSeenWake, HasRested, HasFinished, KeepsHand, HandsOver, LaysDown};

use crate::answers::{HeldJob, JobRested, JobSpawned, PlacedJob, SpawnedHere};
use crate::executor::Executor;
use crate::layout::{LAST_GENERATION, free_word, mark_word, name_at, ready_word};
use crate::seat::{ExecSeat, SeatInCall};
use crate::turns::{TakenJob, first_from, has_more, lowest_index};

#[inline(always)]
pub(crate) fn job_at(place: usize, mark: u64, job: u64) -> HeldJob
    requires { place < 1048576 }
    ensures { result ≡ record { place = place; name = name_of place mark; job = job } }
{
    HeldJob {
        place,
        name: name_at(place, mark),
        job,
    }
}

impl Executor {
    /// Returns the mark (atomic word) of slot `place`, and clears the record of a wake of the slot's job.
    pub(crate) fn refresh(&self, seat: &mut SeatInCall, place: usize) -> u64
        requires own { seat.old.table ≡ self.now.table }
        requires place { place < 4096 * self.now.shards }
        requires newest { (job : ℕ) × (inside : ℕ) × HasNewest place job inside seat.old }
        requires calm { seat.old.known.unshown ≡ 0 }
        ensures { (found : ℕ) × (seat.new ≡ record seat.old { known = using_up result place found (noted (mark_at place) result seat.old.known) }) }
    {
        self.few();
        let mark = self.look(seat, mark_word(place));
        if mark % 4 == 0 {
            return mark;
        }
        self.hear(seat, place);
        mark
    }

    /// Tries once to put `job` into a free slot of `block` (64 slots), ready to be run by any kernel thread.
    pub fn spawn(&self, seat: &mut ExecSeat, block: usize, job: u64) -> JobSpawned
        requires own { seat.old.table ≡ self.now.table }
        requires block { block < 64 * self.now.shards }
        ensures seat { seat.new ≡ record seat.old { known = seat.new.known } }
        ensures answer { HasSpawned result block job seat.old.known seat.new.known }
        ensures hand { KeepsHand seat.old.known seat.new.known }
    {
        self.few();
        let free = self.look(&mut seat.at, free_word(block));
        if free == 0 {
            return JobSpawned::Full;
        }
        let place = 64 * block + lowest_index(free);
        if !self.claim_bit(&mut seat.at, place) {
            return JobSpawned::Lost;
        }
        let mark = self.look(&mut seat.at, mark_word(place));
        self.lay(&mut seat.at, place, job);
        let unpark = self.publish_new(&mut seat.at, place, job);
        JobSpawned::Placed(PlacedJob {
            place,
            name: name_at(place, mark),
            unpark,
        })
    }

    /// Tries once to put `job` into a free slot of `block` (64 slots). The caller then holds the job.
    pub fn spawn_here(&self, seat: &mut ExecSeat, block: usize, job: u64) -> SpawnedHere
        requires own { seat.old.table ≡ self.now.table }
        requires block { block < 64 * self.now.shards }
        ensures seat { seat.new ≡ record seat.old { known = seat.new.known } }
        ensures answer { HasSpawnedHere result block job seat.old.known seat.new.known }
        ensures hand { HandsSpawned result (4096 * self.now.shards) seat.old.known seat.new.known }
    {
        self.few();
        let free = self.look(&mut seat.at, free_word(block));
        if free == 0 {
            return SpawnedHere::Full;
        }
        let place = 64 * block + lowest_index(free);
        if !self.claim_bit(&mut seat.at, place) {
            return SpawnedHere::Lost;
        }
        self.lay(&mut seat.at, place, job);
        let mark = self.begin(&mut seat.at, place, job);
        SpawnedHere::Held(job_at(place, mark, job))
    }

    /// Tries once to take a ready job of `block` (64 slots). Searches from the slot with index `from` on, then from
    /// slot 0.
    pub(crate) fn take_from(
        &self,
        seat: &mut ExecSeat,
        block: usize,
        from: usize,
    ) -> Option<TakenJob>
        requires own { seat.old.table ≡ self.now.table }
        requires block { block < 64 * self.now.shards }
        ensures seat { seat.new ≡ record seat.old { known = seat.new.known } }
        ensures took { IfSome result (λ taken. HasTakenFrom from taken block seat.old.known seat.new.known) }
        ensures none { IfNone result (HasTakenNone block seat.old.known seat.new.known) }
        ensures hand { IfSome result (λ taken. HandsOver (4096 * self.now.shards) taken.job seat.old.known seat.new.known) }
        ensures same { IfNone result (KeepsHand seat.old.known seat.new.known) }
    {
        self.few();
        let ready = self.look(&mut seat.at, ready_word(block));
        if ready == 0 {
            return None;
        }
        let index = first_from(ready, from);
        let place = 64 * block + index;
        if !self.take_bit(&mut seat.at, place) {
            return None;
        }
        let mark = self.refresh(&mut seat.at, place);
        let job = self.lay(&mut seat.at, place, 0);
        self.lay(&mut seat.at, place, job);
        Some(TakenJob {
            job: job_at(place, mark, job),
            more: has_more(ready, index),
        })
    }

    /// Tries once to take a ready job of `block` (64 slots, of any worker). Returns `None` if it takes none.
    ///
    /// The search goes round the block, and begins behind the index at which this seat's last `take` found a job.
    pub fn take(&self, seat: &mut ExecSeat, block: usize) -> Option<HeldJob>
        requires own { seat.old.table ≡ self.now.table }
        requires block { block < 64 * self.now.shards }
        ensures seat { seat.new ≡ record seat.old { known = seat.new.known; turn = seat.new.turn } }
        ensures took { IfSome result (λ job. HasTakenInTurn seat.old.turn job block seat.old.known seat.new.known) }
        ensures turn { IfSome result (λ job. seat.new.turn ≡ job.place % 64 + 1) }
        ensures none { IfNone result (HasTakenNone block seat.old.known seat.new.known × (seat.new.turn ≡ seat.old.turn)) }
        ensures hand { IfSome result (λ job. HandsOver (4096 * self.now.shards) job seat.old.known seat.new.known) }
        ensures same { IfNone result (KeepsHand seat.old.known seat.new.known) }
    {
        let from = seat.take_turn;
        let job = self.take_from(seat, block, from)?.job;
        seat.take_turn = job.place % 64 + 1;
        Some(job)
    }

    /// Makes the job in slot `place` ready again. Returns true if the caller must unpark the worker of that slot.
    ///
    /// Of the jobs that the caller holds, the job in slot `place` must be the one that it took last.
    pub fn rest_ready(&self, seat: &mut ExecSeat, place: usize) -> bool
        requires own { seat.old.table ≡ self.now.table }
        requires place { place < 4096 * self.now.shards }
        requires newest { IsNewest place seat.old.known }
        ensures { seat.new ≡ record seat.old { known = rousing result (worker_at place) (laying_down seat.old.known) } }
    {
        self.publish(&mut seat.at, place)
    }

    /// Blocks the job in slot `place`, and returns true. If a wake of the job is recorded, only returns false.
    fn try_block(&self, seat: &mut SeatInCall, place: usize) -> bool
        requires own { seat.old.table ≡ self.now.table }
        requires place { place < 4096 * self.now.shards }
        requires newest { (job : ℕ) × HasNewest place job job seat.old }
        requires calm { seat.old.known.unshown ≡ 0 }
        ensures put { IsTrue result → HasBlocked place seat.old seat.new }
        ensures missed { IsFalse result → HasSeenWake place seat.old seat.new }
    {
        self.few();
        let mark = self.look(seat, mark_word(place));
        if mark % 4 != 0 {
            return false;
        }
        self.put_blocked(seat, place, mark)
    }

    /// Blocks the job in slot `place`. If a wake of the job is recorded, makes the job ready instead.
    ///
    /// Of the jobs that the caller holds, the job in slot `place` must be the one that it took last.
    pub fn rest_blocked(&self, seat: &mut ExecSeat, place: usize) -> JobRested
        requires own { seat.old.table ≡ self.now.table }
        requires place { place < 4096 * self.now.shards }
        requires newest { IsNewest place seat.old.known }
        ensures seat { seat.new ≡ record seat.old { known = seat.new.known } }
        ensures answer { HasRested result place seat.old.known seat.new.known }
        ensures hand { LaysDown seat.old.known seat.new.known }
    {
        if self.try_block(&mut seat.at, place) {
            return JobRested::Blocked;
        }
        let unpark = self.publish(&mut seat.at, place);
        JobRested::Ready { unpark }
    }

    /// Ends the job in slot `place`, and frees the slot for another job, which gets another name. After 2^44 - 1 jobs,
    /// the slot is not freed but retired, and takes no more jobs.
    ///
    /// Of the jobs that the caller holds, the job in slot `place` must be the one that it took last.
    pub fn finish(&self, seat: &mut ExecSeat, place: usize)
        requires own { seat.old.table ≡ self.now.table }
        requires place { place < 4096 * self.now.shards }
        requires newest { IsNewest place seat.old.known }
        ensures seat { seat.new ≡ record seat.old { known = seat.new.known } }
        ensures ended { HasFinished place seat.old.known seat.new.known }
        ensures hand { LaysDown seat.old.known seat.new.known }
    {
        self.few();
        let mark = self.look(&mut seat.at, mark_word(place));
        self.lay(&mut seat.at, place, 0);
        let generation = mark / 4 + 1;
        if generation >= LAST_GENERATION {
            self.retire(&mut seat.at, place);
            return;
        }
        self.renew(&mut seat.at, place, generation);
        self.put_free(&mut seat.at, place);
    }
}
