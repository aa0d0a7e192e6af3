//! Tests of executors of several sizes, up to the largest.
ghost use Rattle.std.specs.Prelude.{◌<◌, ◌≤◌};

use arachne_exec::{Executor, JobSpawned};
use std::alloc::{AllocError, Global};

/// Spawns a job into the last block, closes the executor, and returns the job's slot and the jobs that were left.
fn last_place(alloc: Global, shards: usize) -> Option<(usize, Vec<u64>)>
    requires { (0 < shards) × (shards ≤ 256) }
{
    let (executor, mut seat) = Executor::new(alloc, shards).ok()?;
    let JobSpawned::Placed(placed) = executor.spawn(&mut seat, 64 * shards - 1, 7) else {
        return None;
    };
    let left = executor.close(alloc, seat).ok()?;
    Some((placed.place, left))
}

fn is_alone_at(spawned: Option<(usize, Vec<u64>)>, wanted: usize) -> bool {
    match spawned {
        Some((place, left)) => place == wanted && left.len() == 1 && left[0] == 7,
        None => false,
    }
}

#[test]
fn the_last_block_of_each_size_takes_a_job(rt: HostRuntime) -> Result<(), AllocError> {
    assert!(rt; is_alone_at(last_place(rt.alloc(), 1), 4032));
    assert!(rt; is_alone_at(last_place(rt.alloc(), 65), 266_176));
    assert!(rt; is_alone_at(last_place(rt.alloc(), 256), 1_048_512));
    Ok(())
}
