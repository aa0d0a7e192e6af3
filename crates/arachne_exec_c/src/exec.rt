//! The C functions by which a host (the program that uses the library) calls an executor.
ghost use Rattle.std.specs.Prelude.{◌≡◌, ◌%◌, ◌^◌};
ghost use Rattle.std.specs.declared.option.Option.TheVariants.{None};
ghost use Rattle.arachne_exec.specs.Layout.{summary_at, ready_at};
ghost use Rattle.arachne_exec_c.specs.Codes.{refused};
ghost use Rattle.arachne_exec_c.specs.Executing.{HasBlock, HasShard, IsEmptyHanded, IsWorker, IsMade, IsSplit, IsJoined};
ghost use Rattle.arachne_exec_c.specs.ExecHeld.{held, IsOfOne};
ghost use Rattle.arachne_exec_c.specs.ExecEnd.{IsEndTold};
ghost use Rattle.arachne_exec_c.specs.ExecTold.{IsTold, IsToldOf, Tells, Spawns, SpawnsHere, LooksAt, Takes, TakesMany, Starts, GoesOn, Rests, Yields, Finishes, Wakes, WakesHere, ParksOrNot, WakesUp, Registers, Leaves, MayTake, MayGoOn, MayRegister, code_alone, code_unparking, told_job, told_spawned, told_spawned_here, told_taken, told_next, told_rested, told_woken, told_woken_here, whom};

use crate::codes::{DONE, LOST, NO_MEMORY, REFUSED};
use crate::exec_handle::ArachneExec;
use crate::exec_holding::{cut_held, end_held, join_held, may_park_held};
use crate::exec_told::{
    ArachneExecLeft, ArachneExecTold, code_alone, end_alone, told_job, told_next, told_ready,
    told_rested, told_spawned, told_spawned_here, told_taken, told_woken, told_woken_here,
};
use crate::executing::Executing;
use arachne_exec::{MOST_SHARDS, WORKERS};
use std::alloc::Global;

/// Creates an executor with `shards` shards of 4,096 job slots. Puts the first seat (a thread's right to call the
/// executor) into `exec`, which must be empty.
///
/// Shard s has the blocks 64 s to 64 s + 63, each of 64 slots, and worker s % 64 runs the jobs in them. Returns DONE;
/// REFUSED if the handle is in use, or if `shards` is greater than 256; NO_MEMORY if memory is refused.
#[unsafe(no_mangle)]
pub extern "C" fn arachne_exec_new(alloc: Global, exec: &mut ArachneExec, shards: usize) -> u32
    ensures { IsMade shards (held exec.old) (held exec.new) result }
{
    if exec.is_in_use(alloc) || shards > MOST_SHARDS {
        return REFUSED;
    }
    let Ok(executing) = Executing::new(alloc, shards) else {
        return NO_MEMORY;
    };
    let Ok(value) = Box::new(alloc, Some(executing)) else {
        return NO_MEMORY;
    };
    exec.put(value);
    DONE
}

/// Splits the seat of `exec` (a thread's right to call the executor), and puts a new seat for another thread into
/// `other`. The new seat has no job and no worker number.
///
/// Returns DONE; REFUSED if `exec` is empty or `other` is in use; NO_MEMORY if memory is refused or the reference count
/// can't grow.
///
/// More than 127 splits one after another, each of a seat from the last split, still succeed, but then the executor
/// can't be ended.
#[unsafe(no_mangle)]
#[tactic(auto, using(crate::proofs::ExecCut::is_split))]
pub extern "C" fn arachne_exec_split(
    alloc: Global,
    exec: &mut ArachneExec,
    other: &mut ArachneExec,
) -> u32
    ensures { IsSplit (held exec.old) (held other.old) (held exec.new) (held other.new) result }
{
    if other.is_in_use(alloc) || !exec.is_in_use(alloc) {
        return REFUSED;
    }
    let Some(mut mine) = exec.take(alloc) else {
        return REFUSED;
    };
    let Ok(mut theirs) = Box::new(alloc, None) else {
        exec.put(mine);
        return NO_MEMORY;
    };
    let is_cut = cut_held(&mut mine, &mut theirs);
    exec.put(mine);
    if !is_cut {
        return NO_MEMORY;
    }
    other.put(theirs);
    DONE
}

/// Joins the seat of `other` (a thread's right to call the executor) into that of `exec`, and leaves `other` empty.
///
/// Returns DONE, or REFUSED if one of the handles is empty, or if `other` holds a job or has a worker number. Both
/// handles must be of one executor, which the library doesn't check. If they are not, the executor of `other` can't be
/// ended any more, and `arachne_exec_end` for `exec` may return too few jobs.
#[unsafe(no_mangle)]
pub extern "C" fn arachne_exec_join(
    alloc: Global,
    exec: &mut ArachneExec,
    other: &mut ArachneExec,
) -> u32
    requires { IsOfOne exec.old other.old }
    ensures { IsJoined (held exec.old) (held other.old) (held exec.new) (held other.new) result }
{
    let Some(mut mine) = exec.take(alloc) else {
        return REFUSED;
    };
    let Some(mut theirs) = other.take(alloc) else {
        exec.put(mine);
        return REFUSED;
    };
    let code = join_held(&mut mine, &mut theirs);
    exec.put(mine);
    if code == REFUSED {
        other.put(theirs);
    }
    code
}

/// Ends the executor, writes the numbers of the unfinished jobs to the beginning of `left`, and empties the handle.
///
/// A number that several of these jobs have is written once for each of them, but the number 0 is never written.
/// Returns DONE with the count of numbers written; REFUSED if the handle is empty or holds a job, if not all other
/// handles were joined into this one, or if `left` has room for fewer than 4,096 numbers for each shard; NO_MEMORY if
/// memory is refused. Unless the code is DONE, the count is 0, and the executor and `left` are unchanged.
#[unsafe(no_mangle)]
pub extern "C" fn arachne_exec_end(
    alloc: Global,
    exec: &mut ArachneExec,
    left: &mut [u64],
) -> ArachneExecLeft
    ensures { IsEndTold (held exec.old) (held exec.new) left.old left.new result }
{
    let Some(mut value) = exec.take(alloc) else {
        return end_alone(REFUSED);
    };
    let told = end_held(alloc, &mut value, left);
    exec.put(value);
    told
}

/// Empties a handle, and frees its seat (a thread's right to call an executor). The last handle also frees the
/// executor.
///
/// A job that the handle holds never runs again. If the handle was not empty, its seat is lost, so that
/// `arachne_exec_end` returns REFUSED for each other handle of the executor.
#[unsafe(no_mangle)]
pub extern "C" fn arachne_exec_close(alloc: Global, exec: &mut ArachneExec)
    ensures { held exec.new ≡ None }
{
    drop(exec.take(alloc));
}

/// Gives the handle the worker number `worker`, from 0 to 63. The handle's thread is then this worker.
///
/// Returns DONE; LOST if another handle has that number; REFUSED if the handle is empty or already has a worker number,
/// or if `worker` is greater than 63.
#[unsafe(no_mangle)]
pub extern "C" fn arachne_exec_register(alloc: Global, exec: &mut ArachneExec, worker: u32) -> u32
    ensures { IsTold (MayRegister worker) (Registers worker) refused (held exec.old) (held exec.new) result }
{
    let Some(mut value) = exec.take(alloc) else {
        return REFUSED;
    };
    let worker = worker as usize;
    let told = match &mut *value {
        Some(seat) if !seat.is_worker() && worker < WORKERS => {
            if seat.register(worker) { DONE } else { LOST }
        }
        _ => REFUSED,
    };
    exec.put(value);
    told
}

/// Gives the handle's worker number back, so that another handle can get this number.
///
/// Returns DONE, or REFUSED if the handle is empty or has no worker number.
#[unsafe(no_mangle)]
pub extern "C" fn arachne_exec_leave(alloc: Global, exec: &mut ArachneExec) -> u32
    ensures { IsTold IsWorker Leaves refused (held exec.old) (held exec.new) result }
{
    let Some(mut value) = exec.take(alloc) else {
        return REFUSED;
    };
    let told = match &mut *value {
        Some(seat) if seat.is_worker() => {
            seat.leave();
            DONE
        }
        _ => REFUSED,
    };
    exec.put(value);
    told
}

/// Tries once to put `job` into a free slot of `block` (64 slots), ready to be run by any thread.
///
/// Returns READY with the job's name, and the worker to unpark; FULL if no slot of the block is free; LOST if another
/// thread claimed the slot first; REFUSED if the handle is empty or there is no such block. If `job` is 0,
/// `arachne_exec_end` never writes its number.
#[unsafe(no_mangle)]
pub extern "C" fn arachne_exec_spawn(
    alloc: Global,
    exec: &mut ArachneExec,
    block: usize,
    job: u64,
) -> ArachneExecTold
    ensures { IsTold (HasBlock block) (Tells (Spawns block job) told_spawned) (code_alone refused) (held exec.old) (held exec.new) result }
{
    let Some(mut value) = exec.take(alloc) else {
        return code_alone(REFUSED);
    };
    let told = match &mut *value {
        Some(seat) if seat.has_block(block) => told_spawned(&seat.spawn(block, job)),
        _ => code_alone(REFUSED),
    };
    exec.put(value);
    told
}

/// Tries once to put `job` into a free slot of `block` (64 slots). The handle then holds the job, so that no other
/// thread can take it.
///
/// Returns RUN with the job's name and number; FULL if no slot of the block is free; LOST if another thread claimed the
/// slot first; REFUSED if the handle is empty or holds a job, or if there is no such block.
#[unsafe(no_mangle)]
pub extern "C" fn arachne_exec_spawn_here(
    alloc: Global,
    exec: &mut ArachneExec,
    block: usize,
    job: u64,
) -> ArachneExecTold
    ensures { IsTold (MayTake block) (Tells (SpawnsHere block job) told_spawned_here) (code_alone refused) (held exec.old) (held exec.new) result }
{
    let Some(mut value) = exec.take(alloc) else {
        return code_alone(REFUSED);
    };
    let told = match &mut *value {
        Some(seat) if seat.is_empty_handed() && seat.has_block(block) => {
            told_spawned_here(&seat.spawn_here(block, job))
        }
        _ => code_alone(REFUSED),
    };
    exec.put(value);
    told
}

/// Returns a bit for each of the 64 blocks of `shard`, which is set if the block may have ready jobs.
///
/// A block whose bit is clear has no ready job, unless a call that makes a job ready there is still in progress.
/// Returns 0 also if the handle is empty or there is no such shard.
#[unsafe(no_mangle)]
pub extern "C" fn arachne_exec_shown(alloc: Global, exec: &mut ArachneExec, shard: usize) -> u64
    ensures { IsTold (HasShard shard) (LooksAt (summary_at shard)) 0 (held exec.old) (held exec.new) result }
{
    let Some(mut value) = exec.take(alloc) else {
        return 0;
    };
    let told = match &mut *value {
        Some(seat) if seat.has_shard(shard) => seat.shown(shard),
        _ => 0,
    };
    exec.put(value);
    told
}

/// Returns a bit for each of the 64 slots of `block`, which is set if the slot has a ready job.
///
/// Returns 0 also if the handle is empty or there is no such block.
#[unsafe(no_mangle)]
pub extern "C" fn arachne_exec_ready(alloc: Global, exec: &mut ArachneExec, block: usize) -> u64
    ensures { IsTold (HasBlock block) (LooksAt (ready_at block)) 0 (held exec.old) (held exec.new) result }
{
    let Some(mut value) = exec.take(alloc) else {
        return 0;
    };
    let told = match &mut *value {
        Some(seat) if seat.has_block(block) => seat.ready(block),
        _ => 0,
    };
    exec.put(value);
    told
}

/// Tries once to take a ready job of `block` (64 slots, of any worker), so that the handle holds the job.
///
/// Returns RUN with the job's name and number; AGAIN if the call took no job; REFUSED if the handle is empty or holds a
/// job, or if there is no such block.
#[unsafe(no_mangle)]
pub extern "C" fn arachne_exec_take(
    alloc: Global,
    exec: &mut ArachneExec,
    block: usize,
) -> ArachneExecTold
    ensures { IsTold (MayTake block) (Tells (Takes block) told_taken) (code_alone refused) (held exec.old) (held exec.new) result }
{
    let Some(mut value) = exec.take(alloc) else {
        return code_alone(REFUSED);
    };
    let told = match &mut *value {
        Some(seat) if seat.is_empty_handed() && seat.has_block(block) => told_taken(&seat.take(
            block,
        )),
        _ => code_alone(REFUSED),
    };
    exec.put(value);
    told
}

/// Takes up to `most` ready jobs of `block` in one atomic operation. The handle then holds these jobs, so that no other
/// thread can take them. A `most` of 0 counts as 1.
///
/// Returns a bit for each of the block's 64 slots whose job this call took. Calls on the handle's job, such as
/// `arachne_exec_finish`, then concern the job in the lowest of these slots. After that job has ended or rests (is made
/// ready or blocked again), they concern the job in the next of these slots. `arachne_exec_start` returns the number
/// and the name of the current job. Returns 0 if the call took no job, if the handle is empty or holds a job already,
/// or if there is no such block.
#[unsafe(no_mangle)]
pub extern "C" fn arachne_exec_take_many(
    alloc: Global,
    exec: &mut ArachneExec,
    block: usize,
    most: u32,
) -> u64
    ensures { IsTold (MayTake block) (TakesMany block most) 0 (held exec.old) (held exec.new) result }
{
    let Some(mut value) = exec.take(alloc) else {
        return 0;
    };
    let told = match &mut *value {
        Some(seat) if seat.has_block(block) && seat.is_empty_handed() => {
            seat.take_many(block, most)
        }
        _ => 0,
    };
    exec.put(value);
    told
}

/// Prepares the current job (the one in the lowest slot) of those that `arachne_exec_take_many` has taken, so that the
/// caller can run it. Clears a recorded wake of the job, since the job runs after the wake.
///
/// Returns RUN with the job's name and number, or REFUSED if the handle holds no job.
#[unsafe(no_mangle)]
pub extern "C" fn arachne_exec_start(alloc: Global, exec: &mut ArachneExec) -> ArachneExecTold
    ensures { IsToldOf (λ place. Tells (Starts place) told_job) (code_alone refused) (held exec.old) (held exec.new) result }
{
    let Some(mut value) = exec.take(alloc) else {
        return code_alone(REFUSED);
    };
    let told = match &mut *value {
        Some(seat) => match seat.hand() {
            Some(place) => told_job(&seat.start(place)),
            None => code_alone(REFUSED),
        },
        None => code_alone(REFUSED),
    };
    exec.put(value);
    told
}

/// Takes the next ready job of the handle's worker, or says that the worker must park.
///
/// Returns RUN with the job's name and number; PARK if the worker must sleep; AGAIN if the caller must call again;
/// REFUSED if the handle is empty, holds a job, or has no worker number.
#[unsafe(no_mangle)]
pub extern "C" fn arachne_exec_next(alloc: Global, exec: &mut ArachneExec) -> ArachneExecTold
    ensures { IsTold MayGoOn (Tells GoesOn told_next) (code_alone refused) (held exec.old) (held exec.new) result }
{
    let Some(mut value) = exec.take(alloc) else {
        return code_alone(REFUSED);
    };
    let told = match &mut *value {
        Some(seat) if seat.is_empty_handed() && seat.is_worker() => told_next(&seat.next()),
        _ => code_alone(REFUSED),
    };
    exec.put(value);
    told
}

/// Marks the worker as asleep, by which other threads know that they must unpark the worker. Then looks for blocks (64
/// job slots each) of the worker that may have ready jobs. `arachne_exec_next` does the same if it finds no job.
///
/// Returns PARK if there is no such block; AGAIN if there is one, and the worker is marked as awake again; REFUSED if
/// the handle is empty or has no worker number.
#[unsafe(no_mangle)]
pub extern "C" fn arachne_exec_may_park(alloc: Global, exec: &mut ArachneExec) -> u32
    ensures { IsTold IsWorker ParksOrNot refused (held exec.old) (held exec.new) result }
{
    let Some(mut value) = exec.take(alloc) else {
        return REFUSED;
    };
    let told = may_park_held(&mut value);
    exec.put(value);
    told
}

/// Marks the worker as awake, so that other threads don't unpark it. A worker must call this function when it wakes by
/// itself.
///
/// Returns DONE, or REFUSED if the handle is empty or has no worker number.
#[unsafe(no_mangle)]
pub extern "C" fn arachne_exec_wake_up(alloc: Global, exec: &mut ArachneExec) -> u32
    ensures { IsTold IsWorker WakesUp refused (held exec.old) (held exec.new) result }
{
    let Some(mut value) = exec.take(alloc) else {
        return REFUSED;
    };
    let told = match &mut *value {
        Some(seat) if seat.is_worker() => {
            seat.wake_up();
            DONE
        }
        _ => REFUSED,
    };
    exec.put(value);
    told
}

/// Makes the job that the handle holds ready again, so that any thread can take it.
///
/// Returns READY with the worker to unpark, or REFUSED if the handle holds no job.
#[unsafe(no_mangle)]
pub extern "C" fn arachne_exec_rest_ready(alloc: Global, exec: &mut ArachneExec) -> ArachneExecTold
    ensures { IsToldOf (λ place. Tells (Yields place) (λ unpark. code_unparking 16 (whom unpark place))) (code_alone refused) (held exec.old) (held exec.new) result }
{
    let Some(mut value) = exec.take(alloc) else {
        return code_alone(REFUSED);
    };
    let told = match &mut *value {
        Some(seat) => match seat.hand() {
            Some(place) => told_ready(place, seat.rest_ready(place)),
            None => code_alone(REFUSED),
        },
        None => code_alone(REFUSED),
    };
    exec.put(value);
    told
}

/// Blocks the job that the handle holds, until the job is woken.
///
/// Returns BLOCKED; READY with the worker to unpark, if the job was woken since it was taken or started, and so is
/// ready again; REFUSED if the handle holds no job.
#[unsafe(no_mangle)]
pub extern "C" fn arachne_exec_rest_blocked(
    alloc: Global,
    exec: &mut ArachneExec,
) -> ArachneExecTold
    ensures { IsToldOf (λ place. Tells (Rests place) (told_rested place)) (code_alone refused) (held exec.old) (held exec.new) result }
{
    let Some(mut value) = exec.take(alloc) else {
        return code_alone(REFUSED);
    };
    let told = match &mut *value {
        Some(seat) => match seat.hand() {
            Some(place) => told_rested(place, &seat.rest_blocked(place)),
            None => code_alone(REFUSED),
        },
        None => code_alone(REFUSED),
    };
    exec.put(value);
    told
}

/// Ends the job that the handle holds, and frees its slot for another job.
///
/// Returns DONE, or REFUSED if the handle holds no job. After 2^44 - 1 jobs a slot is retired and takes no more jobs.
#[unsafe(no_mangle)]
pub extern "C" fn arachne_exec_finish(alloc: Global, exec: &mut ArachneExec) -> u32
    ensures { IsToldOf Finishes refused (held exec.old) (held exec.new) result }
{
    let Some(mut value) = exec.take(alloc) else {
        return REFUSED;
    };
    let told = if let Some(seat) = &mut *value
        && let Some(place) = seat.hand()
    {
        seat.finish(place);
        DONE
    } else {
        REFUSED
    };
    exec.put(value);
    told
}

/// Tries once to wake the job with this name.
///
/// Returns READY with the worker to unpark, if the job was blocked; MARKED if the job wasn't blocked, so that the wake
/// is recorded; ALREADY_MARKED if an earlier wake is still recorded; GONE if no job has the name; LOST if another
/// thread changed the job's slot first; REFUSED if the handle is empty.
#[unsafe(no_mangle)]
pub extern "C" fn arachne_exec_wake(
    alloc: Global,
    exec: &mut ArachneExec,
    name: u64,
) -> ArachneExecTold
    ensures { IsTold (λ _. Unit {0}) (Tells (Wakes name) (told_woken (name % 2 ^ 20))) (code_alone refused) (held exec.old) (held exec.new) result }
{
    let Some(mut value) = exec.take(alloc) else {
        return code_alone(REFUSED);
    };
    let told = match &mut *value {
        Some(seat) => told_woken(name, &seat.wake(name)),
        None => code_alone(REFUSED),
    };
    exec.put(value);
    told
}

/// Tries once to wake the job with this name. If the job was blocked, the handle then holds the job.
///
/// Returns RUN with the job's name and number, if the job was blocked. MARKED, ALREADY_MARKED, GONE and LOST are as in
/// `arachne_exec_wake`; REFUSED if the handle is empty or holds a job.
#[unsafe(no_mangle)]
pub extern "C" fn arachne_exec_wake_here(
    alloc: Global,
    exec: &mut ArachneExec,
    name: u64,
) -> ArachneExecTold
    ensures { IsTold IsEmptyHanded (Tells (WakesHere name) told_woken_here) (code_alone refused) (held exec.old) (held exec.new) result }
{
    let Some(mut value) = exec.take(alloc) else {
        return code_alone(REFUSED);
    };
    let told = match &mut *value {
        Some(seat) if seat.is_empty_handed() => told_woken_here(&seat.wake_here(name)),
        _ => code_alone(REFUSED),
    };
    exec.put(value);
    told
}
