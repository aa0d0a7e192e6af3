//! Turns the results of calls on an executor into C structs.
ghost use Rattle.std.specs.Prelude.{◌≡◌, ◌%◌, ◌^◌};
ghost use Rattle.arachne_exec_c.specs.ExecTold.{code_alone, code_unparking, told_job, told_next, told_rested, told_spawned, told_spawned_here, told_taken, told_woken, told_woken_here, whom};

use crate::codes::{
    AGAIN, ALREADY_MARKED, BLOCKED, FULL, GONE, LOST, MARKED, NOBODY, PARK, READY, RUN,
};
use arachne_exec::{
    HeldJob, JobRested, JobSpawned, JobWoken, Next, SpawnedHere, WokenHere, place_of,
    worker_of_place,
};

/// The result of a call on an executor: a code, the job, and the worker that the caller must unpark.
#[repr(C)]
#[derive(Clone, Copy)]
pub struct ArachneExecTold {
    /// The name of the job that was spawned, or that the handle holds. The low 20 bits are the job's slot, and the
    /// other 44 bits are the number of jobs that had ended there before.
    pub name: u64,
    /// The number of the job that the handle holds, as its spawner passed it.
    pub job: u64,
    pub code: u32,
    /// The worker whose thread the caller must unpark, or NOBODY.
    pub unpark: u32,
}

/// The result of ending an executor: a code, and a count of unfinished jobs.
#[repr(C)]
#[derive(Clone, Copy)]
pub struct ArachneExecLeft {
    /// The count of numbers that the call wrote to the caller's array: those of the unfinished jobs, except 0.
    pub count: u64,
    pub code: u32,
}

pub(crate) fn end_alone(code: u32) -> ArachneExecLeft
    ensures { result ≡ record { count = 0; code = code } }
{
    ArachneExecLeft { count: 0, code }
}

fn whom(unpark: bool, place: usize) -> u32
    ensures { result ≡ whom unpark place }
{
    if unpark {
        worker_of_place(place) as u32
    } else {
        NOBODY
    }
}

fn code_unparking(code: u32, unpark: u32) -> ArachneExecTold
    ensures { result ≡ code_unparking code unpark }
{
    ArachneExecTold {
        name: 0,
        job: 0,
        code,
        unpark,
    }
}

pub(crate) fn code_alone(code: u32) -> ArachneExecTold
    ensures { result ≡ code_alone code }
{
    code_unparking(code, NOBODY)
}

pub(crate) fn told_job(job: &HeldJob) -> ArachneExecTold
    ensures { result ≡ told_job job.now }
{
    ArachneExecTold {
        name: job.name,
        job: job.job,
        code: RUN,
        unpark: NOBODY,
    }
}

pub(crate) fn told_spawned(answer: &JobSpawned) -> ArachneExecTold
    ensures { result ≡ told_spawned answer.now }
{
    match answer {
        JobSpawned::Placed(placed) => ArachneExecTold {
            name: placed.name,
            job: 0,
            code: READY,
            unpark: whom(placed.unpark, placed.place),
        },
        JobSpawned::Full => code_alone(FULL),
        JobSpawned::Lost => code_alone(LOST),
    }
}

pub(crate) fn told_spawned_here(answer: &SpawnedHere) -> ArachneExecTold
    ensures { result ≡ told_spawned_here answer.now }
{
    match answer {
        SpawnedHere::Held(job) => told_job(job),
        SpawnedHere::Full => code_alone(FULL),
        SpawnedHere::Lost => code_alone(LOST),
    }
}

pub(crate) fn told_taken(answer: &Option<HeldJob>) -> ArachneExecTold
    ensures { result ≡ told_taken answer.now }
{
    match answer {
        Some(job) => told_job(job),
        None => code_alone(AGAIN),
    }
}

pub(crate) fn told_next(answer: &Next) -> ArachneExecTold
    ensures { result ≡ told_next answer.now }
{
    match answer {
        Next::Run(job) => told_job(job),
        Next::Park => code_alone(PARK),
        Next::Again => code_alone(AGAIN),
    }
}

pub(crate) fn told_ready(place: usize, unpark: bool) -> ArachneExecTold
    ensures { result ≡ code_unparking 16 (whom unpark place) }
{
    code_unparking(READY, whom(unpark, place))
}

pub(crate) fn told_rested(place: usize, answer: &JobRested) -> ArachneExecTold
    ensures { result ≡ told_rested place answer.now }
{
    match answer {
        JobRested::Blocked => code_alone(BLOCKED),
        JobRested::Ready { unpark } => told_ready(place, *unpark),
    }
}

pub(crate) fn told_woken(name: u64, answer: &JobWoken) -> ArachneExecTold
    ensures { result ≡ told_woken (name % 2 ^ 20) answer.now }
{
    match answer {
        JobWoken::Ready { unpark } => told_ready(place_of(name), *unpark),
        JobWoken::Marked => code_alone(MARKED),
        JobWoken::Already => code_alone(ALREADY_MARKED),
        JobWoken::Gone => code_alone(GONE),
        JobWoken::Lost => code_alone(LOST),
    }
}

pub(crate) fn told_woken_here(answer: &WokenHere) -> ArachneExecTold
    ensures { result ≡ told_woken_here answer.now }
{
    match answer {
        WokenHere::Held(job) => told_job(job),
        WokenHere::Marked => code_alone(MARKED),
        WokenHere::Already => code_alone(ALREADY_MARKED),
        WokenHere::Gone => code_alone(GONE),
        WokenHere::Lost => code_alone(LOST),
    }
}
