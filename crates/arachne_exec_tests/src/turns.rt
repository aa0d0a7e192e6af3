//! Tests that jobs that become ready again at once don't make other jobs wait forever.
ghost use Rattle.std.specs.Prelude.{◌≡◌, ◌*◌, ◌<◌};
ghost use Rattle.arachne_exec.specs.Calls.{KeepsHand};

use arachne_exec::{ExecSeat, Executor, Next};
use std::test::Fail;

/// Takes a job of `block`, and makes it ready again at once.
///
/// Returns the bit of the job's slot in the block, or 0 if no job was ready.
pub(super) fn take_again(executor: &Executor, seat: &mut ExecSeat, block: usize) -> u64
    requires own { seat.old.table ≡ executor.now.table }
    requires block { block < 64 * executor.now.shards }
    ensures own { seat.new.table ≡ executor.now.table }
    ensures hand { KeepsHand seat.old.known seat.new.known }
{
    let Some(job) = executor.take(seat, block) else {
        return 0;
    };
    executor.rest_ready(seat, job.place);
    1 << (job.place % 64) as u32
}

/// Takes a job of worker 0, makes it ready again at once, and returns its number, or 0 if no job was ready.
fn run_again(executor: &Executor, seat: &mut ExecSeat) -> u64
    requires own { seat.old.table ≡ executor.now.table }
    requires worker { seat.old.known.worker ≡ 1 }
    ensures own { seat.new.table ≡ executor.now.table }
    ensures worker { seat.new.known.worker ≡ 1 }
{
    let Next::Run(job) = executor.next(seat, 0) else {
        return 0;
    };
    executor.rest_ready(seat, job.place);
    job.job
}

#[test]
fn each_of_64_ready_jobs_is_taken_within_64_takes(rt: HostRuntime) -> Result<(), Fail> {
    let (executor, mut seat) = Executor::new(rt.alloc(), 1)?;
    for _ in 0..64 {
        executor.spawn(&mut seat, 3, 7);
    }
    let mut taken = 0;
    for _ in 0..64 {
        taken |= take_again(&executor, &mut seat, 3);
    }
    assert!(rt; taken == u64::MAX);
    Ok(())
}

#[test]
fn each_ready_job_of_a_worker_is_run_in_turn(rt: HostRuntime) -> Result<(), Fail> {
    let (executor, mut seat) = Executor::new(rt.alloc(), 65)?;
    assert!(rt; executor.register(&mut seat, 0));
    for job in 0..4u32 {
        executor.spawn(&mut seat, 0, 1 << job);
        executor.spawn(&mut seat, 63, 16 << job);
        executor.spawn(&mut seat, 4096, 256 << job);
    }
    let mut run = 0;
    for _ in 0..12 {
        run |= run_again(&executor, &mut seat);
    }
    assert!(rt; run == 4095);
    Ok(())
}

fn end_one(executor: &Executor, seat: &mut ExecSeat, block: usize)
    requires own { seat.old.table ≡ executor.now.table }
    requires block { block < 64 * executor.now.shards }
    ensures { seat.new.table ≡ executor.now.table }
{
    if let Some(job) = executor.take(seat, block) {
        executor.finish(seat, job.place);
    }
}

/// Leaves `block` recorded as one that may have ready jobs, although it has none.
fn pass_by(executor: &Executor, seat: &mut ExecSeat, block: usize)
    requires own { seat.old.table ≡ executor.now.table }
    requires block { block < 64 * executor.now.shards }
    ensures { seat.new.table ≡ executor.now.table }
{
    executor.spawn(seat, block, 4);
    end_one(executor, seat, block);
}

#[test]
fn blocks_that_others_empty_keep_no_shard_waiting(rt: HostRuntime) -> Result<(), Fail> {
    let (executor, mut seat) = Executor::new(rt.alloc(), 65)?;
    let mut other = executor.split(&mut seat);
    assert!(rt; executor.register(&mut seat, 0));
    executor.spawn(&mut seat, 0, 1);
    executor.spawn(&mut seat, 4096, 2);
    let mut run = 0;
    for _ in 0..12 {
        pass_by(&executor, &mut other, 5);
        run |= run_again(&executor, &mut seat);
    }
    assert!(rt; run == 3);
    Ok(())
}

#[test]
fn a_worker_goes_round_its_shards(rt: HostRuntime) -> Result<(), Fail> {
    let (executor, mut seat) = Executor::new(rt.alloc(), 65)?;
    let mut other = executor.split(&mut seat);
    assert!(rt; executor.register(&mut seat, 0));
    executor.spawn(&mut other, 4096, 1);
    executor.spawn(&mut other, 4096, 2);
    assert!(rt; run_again(&executor, &mut seat) == 1);
    // Now it is the turn of the second shard, in which no job is left.
    end_one(&executor, &mut other, 4096);
    end_one(&executor, &mut other, 4096);
    executor.spawn(&mut other, 0, 4);
    assert!(rt; run_again(&executor, &mut seat) == 4);
    Ok(())
}
