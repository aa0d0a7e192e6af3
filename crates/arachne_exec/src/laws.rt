//! Laws that hold for an executor between any two atomic operations. Each law is the contract of a function that does
//! nothing.
ghost use Rattle.std.specs.Prelude.{◌≡◌, ◌≢◌, Bool, ℕ, ◌+◌, ◌*◌, ◌/◌, ◌<◌, ◌≤◌, min, List, ◌∷◌};
ghost use mathlib.Core.Option.{some};
ghost use lib.ListN.{get_elem?};
ghost use Rattle.arachne_weights.specs.declared.token.Token.{Token};
ghost use Rattle.arachne_exec.specs.declared.view.Notes.{Notes};
ghost use Rattle.arachne_exec.specs.declared.answers.JobRested.{JobRested};
ghost use Rattle.arachne_exec.specs.declared.answers.JobSpawned.{JobSpawned};
ghost use Rattle.arachne_exec.specs.declared.answers.JobWoken.{JobWoken};
ghost use Rattle.arachne_exec.specs.declared.answers.Next.{Next};
ghost use Rattle.arachne_exec.specs.declared.answers.HeldJob.{HeldJob};
ghost use Rattle.arachne_exec.specs.declared.answers.SpawnedHere.{SpawnedHere};
ghost use Rattle.arachne_exec.specs.declared.answers.WokenHere.{WokenHere};
ghost use Rattle.arachne_exec.specs.Layout.{mark_at, last_generation, worker_of};
ghost use Rattle.arachne_exec.specs.Changes.{laying_down, rousing};
ghost use Rattle.arachne_exec.specs.Calls.{worker_at, HasSpawned, HasSpawnedHere, HasTaken, HasTakenNone, HasTakenMany, HasStarted, HasRested, HasFinished, HasWoken, HasWokenHere, HasAnswered};
ghost use Rattle.arachne_exec.specs.Sleeps.{spawn_unparks, rest_unparks, wake_unparks, Rouses, RousesNobody, Sleeps};
ghost use Rattle.arachne_exec.specs.Board.{Board, HasCome, IsLawful, places_in, at_home, is_ready, is_free, is_blocked, is_idle, unspawned_by, seats_of, ends_at, lies, rises, rouses};
ghost use Rattle.arachne_exec.specs.Promises.{IsReadyJob, IsEmptyPlace, keepers_of, HasReady, IsShownOrOwed, IsParked, AreOwedTo};
ghost use Rattle.arachne_exec.specs.Promises.{spawns, ends, times_in_hand, spawned_at, ended_at, lives_at, spawns_at, frees_at, blocks, unblocks, wakes, wakes_heard, is_marked, is_unused, generation_at};

use crate::executor::Executor;
use crate::seat::ExecSeat;

/// Each change of an executor is one atomic operation (*step*). The laws below hold at first and after each step.
///
/// For proofs only, each seat (right to call) has a record: each change that it made to a worker number or an idle bit,
/// each ready job that it took, and why it no longer holds a job. A record never loses an entry.
///
/// A call that has claimed a slot spawns a job there before it returns.
pub fn boards_come_by_steps()
    ensures { (shards : ℕ) (b : Board) → IsLawful shards b → HasCome shards b }
{}

/// Each slot is free, or its job is ready, blocked, or held by one seat.
///
/// So each job that is neither blocked nor held has its bit in a ready word, in which workers search for jobs. A
/// retired slot (it takes no more jobs) counts as blocked.
pub fn ready_jobs_are_shown()
    ensures shown { (shards : ℕ) (b : Board) → IsLawful shards b → (place : ℕ) → place < 4096 * shards → IsReadyJob place b → is_ready b.words place ≡ 1 }
    ensures one_keeper { (shards : ℕ) (b : Board) → IsLawful shards b → (place : ℕ) → place < 4096 * shards
        → keepers_of place b ≡ 1 }
{}

/// A free slot stores no job number.
pub fn free_places_are_empty()
    ensures { (shards : ℕ) (b : Board) → IsLawful shards b → (place : ℕ) → place < 4096 * shards → is_free b.words place ≡ 1 → IsEmptyPlace place b }
{}

/// If a slot isn't free, a job was spawned there since the slot was last freed, or a call in progress must still spawn
/// one. A ready job was therefore spawned.
pub fn jobs_are_spawned()
    ensures { (shards : ℕ) (b : Board) → IsLawful shards b → (place : ℕ) → place < 4096 * shards
        → spawns_at place b + unspawned_by place b.views + is_free b.words place ≡ frees_at place b + 1 }
{}

/// A block with a ready job is on its worker's list of blocks to search, or a call in progress must still add it.
pub fn ready_blocks_are_shown()
    ensures { (shards : ℕ) (b : Board) → IsLawful shards b → (block : ℕ) → block < 64 * shards → HasReady block b → IsShownOrOwed block b }
{}

/// If a block of a parked worker has a ready job, a call in progress must still add the block to the worker's list of
/// blocks to search, or wake the worker.
pub fn sleepers_are_woken()
    ensures { (shards : ℕ) (b : Board) → IsLawful shards b → (worker : ℕ) → IsParked shards worker b → AreOwedTo shards worker b }
{}

/// A worker's idle bit (set while it sleeps or is about to) was cleared as often as it was set, or once less if it is
/// set now.
pub fn sleepers_are_told()
    ensures { (shards : ℕ) (b : Board) → IsLawful shards b → (worker : ℕ) → worker < 64
        → lies worker b.views ≡ rises worker b.views + rouses worker b.views + is_idle b.words worker }
{}

/// The result of a call says that a worker must be unparked exactly if the call has cleared this worker's idle bit to
/// wake it.
///
/// Only a worker's own calls of `next` and `may_park` set the bit. Its own calls of `next` may also clear it, and then
/// no worker need be unparked.
pub fn calls_say_whom_they_rouse()
    ensures spawn { (answer : JobSpawned) (block job : ℕ) (k after : Notes) → HasSpawned answer block job k after → Rouses (spawn_unparks answer) (worker_of (block / 64)) k after }
    ensures rest_ready { (unpark : Bool) (place : ℕ) (k : Notes) → Rouses unpark (worker_at place) k (rousing unpark (worker_at place) (laying_down k)) }
    ensures rest_blocked { (answer : JobRested) (place : ℕ) (k after : Notes) → HasRested answer place k after → Rouses (rest_unparks answer) (worker_at place) k after }
    ensures wake { (answer : JobWoken) (places place generation : ℕ) (k after : Notes) → HasWoken answer places place generation k after → Rouses (wake_unparks answer) (worker_at place) k after }
    ensures next { (answer : Next) (shards worker : ℕ) (k after : Notes) → HasAnswered answer shards worker k after → Sleeps answer shards worker k after }
    ensures spawn_here { (answer : SpawnedHere) (block job : ℕ) (k after : Notes) → HasSpawnedHere answer block job k after → RousesNobody k after }
    ensures wake_here { (answer : WokenHere) (places place generation : ℕ) (k after : Notes) → HasWokenHere answer places place generation k after → RousesNobody k after }
    ensures take { (job : HeldJob) (block : ℕ) (k after : Notes) → HasTaken job block k after → RousesNobody k after }
    ensures take_none { (block : ℕ) (k after : Notes) → HasTakenNone block k after → RousesNobody k after }
    ensures take_many { (bits block most : ℕ) (k after : Notes) → HasTakenMany bits block most k after → RousesNobody k after }
    ensures start { (job : HeldJob) (place : ℕ) (k after : Notes) → HasStarted job place k after → RousesNobody k after }
    ensures finish { (place : ℕ) (k after : Notes) → HasFinished place k after → RousesNobody k after }
{}

/// Jobs are neither lost nor doubled, in the executor and in each slot.
///
/// Each job that was spawned with a number other than 0 has ended, is held by a seat, or is stored in a slot.
pub fn jobs_are_conserved()
    ensures all { (shards : ℕ) (b : Board) → IsLawful shards b → (job : ℕ) → 0 < job
        → spawns job b ≡ ends job b + times_in_hand job b + at_home job b.homes }
    ensures at_place { (shards : ℕ) (b : Board) → IsLawful shards b → (place job : ℕ) → 0 < job
        → spawned_at place job b ≡ ended_at place job b + lives_at place job b }
{}

/// A slot's jobs were blocked as often as they were unblocked, and once more if the slot's job is blocked now.
///
/// A retired slot counts as blocked.
pub fn blocks_are_counted()
    ensures { (shards : ℕ) (b : Board) → IsLawful shards b → (place : ℕ) → place < 4096 * shards
        → blocks place b ≡ unblocks place b + is_blocked b.words place }
{}

/// Wakes aren't lost: each recorded wake of a slot's job was cleared once, or is still recorded. A blocked job has
/// none.
pub fn wakes_are_heard()
    ensures blocked { (shards : ℕ) (b : Board) → IsLawful shards b → (place : ℕ) → place < 4096 * shards → is_blocked b.words place ≡ 1 → is_marked b.words place ≡ 0 }
    ensures heard { (shards : ℕ) (b : Board) → IsLawful shards b → (place : ℕ) → place < 4096 * shards
        → wakes place b ≡ wakes_heard place b + is_marked b.words place }
{}

/// At most one job is in a slot, and a name belongs to one job forever.
///
/// A name contains the slot's generation, which is the number of jobs that have ended there, up to the largest that a
/// name can hold. While a seat holds the slot's job, the generation stays the same.
pub fn names_are_of_one_job()
    ensures generation { (shards : ℕ) (b : Board) → IsLawful shards b → (place : ℕ) → place < 4096 * shards
        → generation_at place b ≡ min last_generation (ends_at place b.views) }
    ensures found { (shards : ℕ) (b : Board) → IsLawful shards b → (seat : ℕ) (view : Token Notes) → get_elem? b.views seat ≡ some view → (place : ℕ) → place < 4096 * shards
        → 0 < places_in place view.known.hand → (mark : ℕ) (older : List (ℕ × ℕ)) → view.known.looks ≡ (mark_at place, mark) ∷ older → mark / 4 ≡ generation_at place b }
    ensures one { (shards : ℕ) (b : Board) → IsLawful shards b → (place : ℕ) → place < 4096 * shards → (job other : ℕ) → job ≢ other
        → lives_at place job b + lives_at place other b ≤ 1 }
{}

/// No two seats have the same worker number, and each worker number in use belongs to a seat.
pub fn workers_are_one()
    ensures one { (shards : ℕ) (b : Board) → IsLawful shards b → (worker : ℕ) → worker < 64 → seats_of worker b.views ≤ 1 }
    ensures taken { (shards : ℕ) (b : Board) → IsLawful shards b → (worker : ℕ) → worker < 64 → is_unused b.words worker ≡ 0 → seats_of worker b.views ≡ 1 }
{}

fn may_be_shared<T: Send + Sync>() {}

/// An executor and a seat are `Send` and `Sync`.
pub fn executors_cross_threads() {
    may_be_shared::<Executor>();
    may_be_shared::<ExecSeat>();
}
