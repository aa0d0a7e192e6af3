//! The core of an executor, on atomic words. The executor knows which jobs are ready, which thread has each running
//! job, and which worker must be woken.
//!
//! From its spawn to its end, a job stays in one *slot* (a *place* in the code). The *mark* of a slot is an atomic word
//! that says whether the job is blocked or was woken. The mark also counts the jobs that have ended in the slot (the
//! *generation*). Slot and generation together are the job's *name*. A *block* is 64 slots, and has a *ready word* with
//! a bit for each ready job. A *shard* is 64 blocks, and has a *summary word* with a bit for each block that may have
//! ready jobs. The *idle word* has a bit for each worker that sleeps or is about to.
//!
//! A *seat* is one kernel thread's right to call the executor. A seat *holds* a job from the call that takes the job
//! until a call ends the job, or makes it ready or blocked again. During this time no other thread can take the job. If
//! a seat holds several jobs, such calls are possible only for the job that the seat took last. A call that makes the
//! first job of a block ready must also set the block's bit in the summary word, if it isn't set. If that word was 0,
//! the call must also read the idle word, to wake the shard's worker if it sleeps. Until then the seat *owes* this.
#![tactic(auto)]

mod answers;
mod ending;
mod executor;
mod jobs;
mod laws;
mod layout;
mod looking;
mod parking;
mod rounds;
mod seat;
mod showing;
mod sleepers;
mod steps;
mod taking;
mod turns;
mod view;
mod waking;
mod words;

pub use answers::{
    HeldJob, JobRested, JobSpawned, JobWoken, Next, PlacedJob, SpawnedHere, WokenHere,
};
pub use executor::Executor;
pub use laws::{
    blocks_are_counted, boards_come_by_steps, calls_say_whom_they_rouse, executors_cross_threads,
    free_places_are_empty, jobs_are_conserved, jobs_are_spawned, names_are_of_one_job,
    ready_blocks_are_shown, ready_jobs_are_shown, sleepers_are_told, sleepers_are_woken,
    wakes_are_heard, workers_are_one,
};
pub use layout::{
    BLOCKS_PER_SHARD, MOST_SHARDS, PLACES_PER_BLOCK, WORKERS, place_of, worker_of_place,
};
pub use seat::ExecSeat;
pub use view::{Notes, SleepDeed, View};
