//! One function for each atomic operation on the words of a slot (its free bit, its ready bit and its mark).
ghost use Rattle.std.specs.Prelude.{◌≡◌, ◌≢◌, ℕ, ◌+◌, ◌-◌, ◌*◌, ◌/◌, ◌%◌, ◌^◌, ◌<◌, ◌≤◌, ◌∷◌, IsTrue, IsFalse};
ghost use Rattle.std.specs.Int.{bit_at};
ghost use Rattle.atomic_table.specs.Table.{rest};
ghost use Rattle.arachne_exec.specs.Board.{IsLast};
ghost use Rattle.arachne_exec.specs.Layout.{ready_at, free_at, mark_at, words_of, last_generation};
ghost use Rattle.arachne_exec.specs.Changes.{gained, unblocking, claiming, laying_down, freeing, blocking, spawning, beginning, ending, marking, hearing, noted, unshowing};
ghost use Rattle.arachne_exec.specs.Seats.{HasNewest, HasFoundMark};
ghost use Rattle.arachne_exec.specs.Calls.{HasTakenBits};

use crate::executor::Executor;
use crate::layout::{LAST_GENERATION, all_but, bit, free_word, mark_word, ready_word};
use crate::seat::SeatInCall;
use crate::steps::{
    Begin, Block, ClaimBit, Hear, LookAtWord, MarkWake, PutFree, PutReady, PutSpawned, Renew,
    RetirePlace, TakeBit, TakeMany, Wake,
};

impl Executor {
    pub(crate) fn look(&self, seat: &mut SeatInCall, word: usize) -> u64
        requires own { seat.old.table ≡ self.now.table }
        requires inside { word < words_of (64 * self.now.shards) }
        requires calm { seat.old.known.unshown ≡ 0 }
        ensures seat { seat.new ≡ record seat.old { known = noted word result seat.old.known } }
    {
        let _ = self.shards;
        self.table.shared.load::<LookAtWord>(&mut seat.seat, word)
    }

    /// Stores `new` as the job number in slot `place`, which only the caller may access now, and returns the old
    /// number.
    pub(crate) fn lay(&self, seat: &mut SeatInCall, place: usize, new: u64) -> u64
        requires own { seat.old.table ≡ self.now.table }
        requires out { (old : ℕ) × (seat.old.slots ≡ (place, old) ∷ rest seat.old.slots) }
        ensures found { seat.old.slots ≡ (place, result) ∷ rest seat.old.slots }
        ensures seat { seat.new ≡ record seat.old { slots = (place, new) ∷ rest seat.old.slots } }
    {
        let _ = self.shards;
        self.table.shared.exchange(&mut seat.seat, place, new)
    }

    /// Takes the ready job in slot `place`, or returns false if the job was no longer ready.
    pub(crate) fn take_bit(&self, seat: &mut SeatInCall, place: usize) -> bool
        requires own { seat.old.table ≡ self.now.table }
        requires place { place < 4096 * self.now.shards }
        ensures took { IsTrue result → (n job : ℕ) × (bit_at n (place % 64) ≡ 1) × (seat.new ≡ record seat.old { known = gained place job (noted (ready_at (place / 64)) n seat.old.known); slots = (place, job) ∷ seat.old.slots }) }
        ensures missed { IsFalse result → (n : ℕ) × (bit_at n (place % 64) ≡ 0) × (seat.new ≡ record seat.old { known = noted (ready_at (place / 64)) n seat.old.known }) }
    {
        let _ = self.shards;
        let shared = &self.table.shared;
        let index = place % 64;
        let found = shared.fetch_and::<TakeBit>(
            &mut seat.seat,
            ready_word(place / 64),
            all_but(index),
        );
        found >> index as u32 & 1 == 1
    }

    /// Takes the jobs of `block` (64 slots) that are ready and whose slot's bit is set in `pick`. Returns the bits of
    /// the jobs taken.
    pub(crate) fn take_bits(&self, seat: &mut SeatInCall, block: usize, pick: u64) -> u64
        requires own { seat.old.table ≡ self.now.table }
        requires block { block < 64 * self.now.shards }
        ensures took { HasTakenBits result block pick seat.old seat.new }
    {
        let _ = self.shards;
        let shared = &self.table.shared;
        let found = shared.fetch_and::<TakeMany>(
            &mut seat.seat,
            ready_word(block),
            u64::MAX - pick,
        );
        found & pick
    }

    /// Claims slot `place`, in which the caller must then spawn a job, or returns false if the slot was no longer free.
    pub(crate) fn claim_bit(&self, seat: &mut SeatInCall, place: usize) -> bool
        requires own { seat.old.table ≡ self.now.table }
        requires place { place < 4096 * self.now.shards }
        requires spawned { seat.old.known.unspawned ≡ 0 }
        ensures took { IsTrue result → (n : ℕ) × (bit_at n (place % 64) ≡ 1) × (seat.new ≡ record seat.old { known = claiming place (noted (free_at (place / 64)) n seat.old.known); slots = (place, 0) ∷ seat.old.slots }) }
        ensures missed { IsFalse result → (n : ℕ) × (bit_at n (place % 64) ≡ 0) × (seat.new ≡ record seat.old { known = noted (free_at (place / 64)) n seat.old.known }) }
    {
        let _ = self.shards;
        let shared = &self.table.shared;
        let index = place % 64;
        let found = shared.fetch_and::<ClaimBit>(
            &mut seat.seat,
            free_word(place / 64),
            all_but(index),
        );
        found >> index as u32 & 1 == 1
    }

    pub(crate) fn put_free(&self, seat: &mut SeatInCall, place: usize)
        requires own { seat.old.table ≡ self.now.table }
        requires place { place < 4096 * self.now.shards }
        requires newest { HasNewest place 0 0 seat.old }
        ensures seat { seat.new ≡ record seat.old { known = freeing seat.old.known; slots = rest seat.old.slots } }
    {
        let _ = self.shards;
        let shared = &self.table.shared;
        shared.fetch_or::<PutFree>(&mut seat.seat, free_word(place / 64), bit(place % 64));
    }

    /// Makes the job in slot `place` ready. Returns true if no other job of its block (64 slots) is ready: the caller
    /// must then add the block to the list of blocks to search (`show`).
    pub(crate) fn put_ready(&self, seat: &mut SeatInCall, place: usize) -> bool
        requires own { seat.old.table ≡ self.now.table }
        requires place { place < 4096 * self.now.shards }
        requires newest { (job : ℕ) × HasNewest place job job seat.old }
        requires shown { seat.old.known.unshown ≡ 0 }
        ensures first { IsTrue result → seat.new ≡ record seat.old { known = unshowing (place / 64 + 1) (laying_down seat.old.known); slots = rest seat.old.slots } }
        ensures more { IsFalse result → seat.new ≡ record seat.old { known = laying_down seat.old.known; slots = rest seat.old.slots } }
    {
        let _ = self.shards;
        let shared = &self.table.shared;
        shared.fetch_or::<PutReady>(&mut seat.seat, ready_word(place / 64), bit(place % 64)) == 0
    }

    pub(crate) fn put_spawned(&self, seat: &mut SeatInCall, place: usize, job: u64) -> bool
        requires own { seat.old.table ≡ self.now.table }
        requires place { place < 4096 * self.now.shards }
        requires newest { HasNewest place 0 job seat.old }
        requires claimed { seat.old.known.unspawned ≡ place + 1 }
        requires named { IsLast (mark_at place) seat.old.known.looks }
        requires shown { seat.old.known.unshown ≡ 0 }
        ensures first { IsTrue result → seat.new ≡ record seat.old { known = unshowing (place / 64 + 1) (spawning job seat.old.known); slots = rest seat.old.slots } }
        ensures more { IsFalse result → seat.new ≡ record seat.old { known = spawning job seat.old.known; slots = rest seat.old.slots } }
    {
        let _ = self.shards;
        let shared = &self.table.shared;
        shared.fetch_or::<PutSpawned>(&mut seat.seat, ready_word(place / 64), bit(place % 64)) == 0
    }

    /// Returns the mark (atomic word) of slot `place`. In proofs, this step also spawns `job`, which the caller then
    /// holds.
    pub(crate) fn begin(&self, seat: &mut SeatInCall, place: usize, job: u64) -> u64
        requires own { seat.old.table ≡ self.now.table }
        requires place { place < 4096 * self.now.shards }
        requires newest { HasNewest place 0 job seat.old }
        requires claimed { seat.old.known.unspawned ≡ place + 1 }
        ensures seat { seat.new ≡ record seat.old { known = beginning job (noted (mark_at place) result seat.old.known) } }
    {
        let _ = self.shards;
        self.table
            .shared
            .load::<Begin>(&mut seat.seat, mark_word(place))
    }

    /// Blocks the job in slot `place`, and returns true, if the slot's mark is still `old`.
    pub(crate) fn put_blocked(&self, seat: &mut SeatInCall, place: usize, old: u64) -> bool
        requires own { seat.old.table ≡ self.now.table }
        requires place { place < 4096 * self.now.shards }
        requires newest { (job : ℕ) × HasNewest place job job seat.old }
        requires unwoken { old % 4 ≡ 0 }
        ensures put { IsTrue result → seat.new ≡ record seat.old { known = blocking seat.old.known; slots = rest seat.old.slots } }
        ensures missed { IsFalse result → (n : ℕ) × (n ≢ old) × (seat.new ≡ record seat.old { known = noted (mark_at place) n seat.old.known }) }
    {
        let _ = self.shards;
        let shared = &self.table.shared;
        let found = shared.compare_exchange::<Block>(
            &mut seat.seat,
            mark_word(place),
            old,
            old + 2,
        );
        found == old
    }

    pub(crate) fn hear(&self, seat: &mut SeatInCall, place: usize)
        requires own { seat.old.table ≡ self.now.table }
        requires place { place < 4096 * self.now.shards }
        requires newest { (job : ℕ) × (inside : ℕ) × HasNewest place job inside seat.old }
        ensures seat { (n : ℕ) × (seat.new ≡ record seat.old { known = noted (mark_at place) (4 * (n / 4)) (hearing (n % 2) place seat.old.known) }) }
    {
        let _ = self.shards;
        let shared = &self.table.shared;
        shared.fetch_and::<Hear>(&mut seat.seat, mark_word(place), u64::MAX - 3);
    }

    /// Sets the mark of slot `place`, whose job ends, to the new `generation` without a recorded wake.
    pub(crate) fn renew(&self, seat: &mut SeatInCall, place: usize, generation: u64)
        requires own { seat.old.table ≡ self.now.table }
        requires place { place < 4096 * self.now.shards }
        requires newest { (job : ℕ) × (inside : ℕ) × HasNewest place job inside seat.old }
        requires generation { (generation < 2 ^ 44) × HasFoundMark place (λ mark. generation ≡ mark / 4 + 1) seat.old.known }
        ensures seat { (n : ℕ) × (seat.new ≡ record seat.old { known = noted (mark_at place) (4 * generation) (ending place (hearing (n % 2) place seat.old.known)) }) }
    {
        let _ = self.shards;
        let shared = &self.table.shared;
        shared.swap::<Renew>(&mut seat.seat, mark_word(place), 4 * generation);
    }

    pub(crate) fn retire(&self, seat: &mut SeatInCall, place: usize)
        requires own { seat.old.table ≡ self.now.table }
        requires place { place < 4096 * self.now.shards }
        requires newest { (job : ℕ) × HasNewest place job 0 seat.old }
        requires last { HasFoundMark place (λ mark. last_generation ≤ mark / 4 + 1) seat.old.known }
        ensures seat { (n : ℕ) × (seat.new ≡ record seat.old { known = blocking (ending place (hearing (n % 2) place seat.old.known)); slots = rest seat.old.slots }) }
    {
        let _ = self.shards;
        let shared = &self.table.shared;
        shared.swap::<RetirePlace>(&mut seat.seat, mark_word(place), 4 * LAST_GENERATION + 2);
    }

    /// Takes the blocked job in slot `place`, and returns true, if the slot's mark is still `old`.
    pub(crate) fn wake_mark(&self, seat: &mut SeatInCall, place: usize, old: u64) -> bool
        requires own { seat.old.table ≡ self.now.table }
        requires place { place < 4096 * self.now.shards }
        requires blocked { old % 4 ≡ 2 }
        ensures took { IsTrue result → (job : ℕ) × (seat.new ≡ record seat.old { known = unblocking place job (noted (mark_at place) old seat.old.known); slots = (place, job) ∷ seat.old.slots }) }
        ensures missed { IsFalse result → (n : ℕ) × (n ≢ old) × (seat.new ≡ record seat.old { known = noted (mark_at place) n seat.old.known }) }
    {
        let _ = self.shards;
        let shared = &self.table.shared;
        let found = shared.compare_exchange::<Wake>(&mut seat.seat, mark_word(place), old, old - 2);
        found == old
    }

    /// Records a wake for the job in slot `place`, and returns true, if the slot's mark is still `old`.
    pub(crate) fn mark(&self, seat: &mut SeatInCall, place: usize, old: u64) -> bool
        requires own { seat.old.table ≡ self.now.table }
        requires place { place < 4096 * self.now.shards }
        requires unwoken { old % 4 ≡ 0 }
        ensures marked { IsTrue result → seat.new ≡ record seat.old { known = marking place (noted (mark_at place) old seat.old.known) } }
        ensures missed { IsFalse result → (n : ℕ) × (n ≢ old) × (seat.new ≡ record seat.old { known = noted (mark_at place) n seat.old.known }) }
    {
        let _ = self.shards;
        let shared = &self.table.shared;
        let found = shared.compare_exchange::<MarkWake>(
            &mut seat.seat,
            mark_word(place),
            old,
            old + 1,
        );
        found == old
    }
}
