//! Makes each call of an executor once, on one kernel thread.
ghost use Rattle.std.specs.Prelude.{◌≡◌, ◌*◌, ◌<◌, IfOk};
ghost use Rattle.arachne_exec.specs.Seats.{IsNewest};
ghost use Rattle.arachne_exec.specs.Calls.{KeepsHand};

use super::turns::take_again;
use arachne_exec::{
    ExecSeat, Executor, HeldJob, JobRested, JobSpawned, JobWoken, Next, PlacedJob, SpawnedHere,
    WokenHere, place_of, worker_of_place,
};
use std::alloc::Global;
use std::process::Abort;
use std::test::Fail;

/// The name of the second job that is put into slot 192.
const SECOND: u64 = 192 + (1 << 20);

const FIRST: HeldJob = HeldJob {
    place: 192,
    name: 192,
    job: 77,
};

/// Returns the result of a spawn into slot `place`, which had no job before.
fn placed(place: usize, unpark: bool) -> JobSpawned {
    JobSpawned::Placed(PlacedJob {
        place,
        name: place as u64,
        unpark,
    })
}

/// Creates an executor, whose worker 0 has found no job. Returns it, the worker's seat, and another seat.
fn with_idle_worker<R: Abort>(rt: &R, alloc: Global) -> Result<(Executor, ExecSeat, ExecSeat), Fail>
    ensures shards { IfOk result (λ made. made.0.shards ≡ 1) }
    ensures worker { IfOk result (λ made. (made.1.table ≡ made.0.table) × (made.1.known.worker ≡ 1)) }
    ensures other { IfOk result (λ made. (made.2.table ≡ made.0.table) × (made.2.known.worker ≡ 0)) }
{
    let (executor, mut seat) = Executor::new(alloc, 1)?;
    assert!(rt; executor.register(&mut seat, 0));
    let other = executor.split(&mut seat);
    assert!(rt; executor.next(&mut seat, 0) == Next::Park);
    Ok((executor, seat, other))
}

/// Creates an executor with one job. Returns it, the seat that holds the job, another seat, and the job.
fn with_held_job(alloc: Global) -> Result<(Executor, ExecSeat, ExecSeat, HeldJob), Fail>
    ensures shards { IfOk result (λ made. made.0.shards ≡ 1) }
    ensures seats { IfOk result (λ made. (made.1.table ≡ made.0.table) × (made.2.table ≡ made.0.table)) }
    ensures place { IfOk result (λ made. made.3.place < 4096) }
    ensures newest { IfOk result (λ made. IsNewest made.3.place made.1.known) }
{
    let (executor, mut seat) = Executor::new(alloc, 1)?;
    let mut other = executor.split(&mut seat);
    executor.spawn(&mut other, 3, 77);
    let job = executor.take(&mut seat, 3).ok_or("no job")?;
    Ok((executor, seat, other, job))
}

/// Takes a job of `block`, and blocks it. Returns `None` if no job was ready.
fn take_and_block(executor: &Executor, seat: &mut ExecSeat, block: usize) -> Option<JobRested>
    requires own { seat.old.table ≡ executor.now.table }
    requires block { block < 64 * executor.now.shards }
    ensures { seat.new.table ≡ executor.now.table }
{
    let job = executor.take(seat, block)?;
    Some(executor.rest_blocked(seat, job.place))
}

/// Spawns `count` jobs into `block`, or as many as it has room for.
fn fill(executor: &Executor, seat: &mut ExecSeat, block: usize, count: usize)
    requires own { seat.old.table ≡ executor.now.table }
    requires block { block < 64 * executor.now.shards }
    ensures own { seat.new.table ≡ executor.now.table }
    ensures hand { KeepsHand seat.old.known seat.new.known }
{
    for _ in 0..count {
        executor.spawn(seat, block, 5);
    }
}

#[test]
fn a_name_says_the_slot_and_the_worker(rt: HostRuntime) -> Result<(), Fail> {
    let (executor, _) = Executor::new(rt.alloc(), 1)?;
    assert!(rt; executor.shards() == 1);
    assert!(rt; place_of(SECOND) == 192 && worker_of_place(192) == 0);
    Ok(())
}

#[test]
fn a_job_is_spawned_taken_and_ends(rt: HostRuntime) -> Result<(), Fail> {
    let (executor, mut seat, mut other) = with_idle_worker(&rt, rt.alloc())?;
    assert!(rt; !executor.register(&mut other, 0));
    assert!(rt; executor.spawn(&mut other, 3, 77) == placed(192, true));
    assert!(rt; !executor.may_park(&mut seat, 0));
    let Next::Run(job) = executor.next(&mut seat, 0) else {
        panic!(rt; "no job")
    };
    assert!(rt; job == FIRST);
    executor.finish(&mut seat, job.place);
    assert!(rt; executor.wake(&mut other, 192) == JobWoken::Gone);
    assert!(rt; executor.next(&mut seat, 0) == Next::Park);
    executor.wake_up(&mut seat, 0);
    Ok(())
}

#[test]
fn a_worker_that_stays_awake_is_not_unparked(rt: HostRuntime) -> Result<(), Fail> {
    let (executor, mut seat, mut other) = with_idle_worker(&rt, rt.alloc())?;
    assert!(rt; executor.spawn(&mut other, 3, 1) == placed(192, true));
    assert!(rt; !executor.may_park(&mut seat, 0));
    assert!(rt; executor.spawn(&mut other, 3, 2) == placed(193, false));
    Ok(())
}

#[test]
fn a_worker_that_has_woken_up_is_not_unparked(rt: HostRuntime) -> Result<(), Fail> {
    let (executor, mut seat, mut other) = with_idle_worker(&rt, rt.alloc())?;
    executor.wake_up(&mut seat, 0);
    assert!(rt; executor.spawn(&mut other, 3, 1) == placed(192, false));
    Ok(())
}

#[test]
fn jobs_that_are_left_come_by_place(rt: HostRuntime) -> Result<(), Fail> {
    let (executor, mut seat) = Executor::new(rt.alloc(), 1)?;
    executor.spawn(&mut seat, 3, 1);
    executor.spawn(&mut seat, 3, 2);
    let left = executor.close(rt.alloc(), seat).ok().ok_or("no memory")?;
    assert!(rt; left.len() == 2 && left[0] == 1 && left[1] == 2);
    Ok(())
}

#[test]
fn a_job_waits_and_is_woken(rt: HostRuntime) -> Result<(), Fail> {
    let (executor, mut seat, mut other, job) = with_held_job(rt.alloc())?;
    assert!(rt; executor.wake(&mut other, 192) == JobWoken::Marked);
    assert!(rt; executor.wake(&mut other, 192) == JobWoken::Already);
    assert!(rt; executor.rest_blocked(&mut seat, job.place) == JobRested::Ready { unpark: false });
    assert!(rt; take_and_block(&executor, &mut seat, 3) == Some(JobRested::Blocked));
    assert!(rt; executor.take(&mut other, 3).is_none());
    assert!(rt; executor.wake(&mut other, SECOND) == JobWoken::Gone);
    assert!(rt; executor.wake(&mut other, 4096) == JobWoken::Gone);
    assert!(rt; executor.wake(&mut other, 192) == JobWoken::Ready { unpark: false });
    assert!(rt; take_and_block(&executor, &mut seat, 3) == Some(JobRested::Blocked));
    assert!(rt; executor.wake_here(&mut other, 192) == WokenHere::Held(FIRST));
    Ok(())
}

#[test]
fn a_job_is_spawned_into_the_hand(rt: HostRuntime) -> Result<(), Fail> {
    let (executor, mut seat) = Executor::new(rt.alloc(), 1)?;
    let SpawnedHere::Held(job) = executor.spawn_here(&mut seat, 3, 77) else {
        panic!(rt; "no place")
    };
    assert!(rt; job == FIRST);
    executor.rest_ready(&mut seat, job.place);
    assert!(rt; executor.shown(&mut seat, 0) == 8 && executor.ready(&mut seat, 3) == 1);
    let left = executor.close(rt.alloc(), seat).ok().ok_or("no memory")?;
    assert!(rt; left.len() == 1 && left[0] == 77);
    Ok(())
}

#[test]
fn a_full_block_and_what_is_left(rt: HostRuntime) -> Result<(), Fail> {
    let (executor, mut seat) = Executor::new(rt.alloc(), 1)?;
    assert!(rt; executor.register(&mut seat, 0));
    let other = executor.split(&mut seat);
    fill(&executor, &mut seat, 3, 64);
    assert!(rt; executor.spawn(&mut seat, 3, 5) == JobSpawned::Full);
    take_again(&executor, &mut seat, 3);
    executor.leave(&mut seat, 0);
    assert!(rt; !executor.is_whole(&seat));
    executor.join_seats(&mut seat, other);
    assert!(rt; executor.is_whole(&seat));
    let left = executor.close(rt.alloc(), seat).ok().ok_or("no memory")?;
    assert!(rt; left.len() == 64);
    Ok(())
}

#[test]
fn several_jobs_are_taken_the_lowest_first(rt: HostRuntime) -> Result<(), Fail> {
    let (executor, mut seat) = Executor::new(rt.alloc(), 1)?;
    fill(&executor, &mut seat, 3, 40);
    assert!(rt; executor.take_many(&mut seat, 3, 3) == 7);
    assert!(rt; executor.take_many(&mut seat, 3, 0) == 8);
    assert!(rt; executor.take_many(&mut seat, 3, 64) == (1 << 40) - 16);
    assert!(rt; executor.take_many(&mut seat, 3, 3) == 0);
    Ok(())
}

#[test]
fn a_start_uses_up_a_wake(rt: HostRuntime) -> Result<(), Fail> {
    let (executor, mut seat, mut other, job) = with_held_job(rt.alloc())?;
    assert!(rt; executor.wake(&mut other, 192) == JobWoken::Marked);
    assert!(rt; executor.start(&mut seat, job.place) == FIRST);
    assert!(rt; executor.rest_blocked(&mut seat, job.place) == JobRested::Blocked);
    Ok(())
}
