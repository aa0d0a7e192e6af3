//! Counts the grains of a heap with a pool on all processors. A job counts one grain, and forks jobs for the others:
//! one for half of them, the next for half of those that are left, and so on.
#![tactic(auto)]

ghost use Rattle.std.specs.Prelude.{◌≡◌, ◌+◌, map, sum};

use anyhow::Result;
use arachne_pool::{Pool, PoolJob, Step, Tagged};

/// A job that counts a heap's grains. Fields: the size, the grains not yet given to a child, and the grains counted.
#[derive(Drop)]
struct Heap {
    size: u64,
    rest: u64,
    counted: u64,
}

impl Tagged for Heap {
    ghost tag_of = { λ heap. heap.size };

    fn tag(&self) -> u64 {
        self.size
    }
}

impl PoolJob for Heap {
    type Output = u64;

    ghost is_result = { λ heap count. count ≡ heap.size };

    ghost awaits = { λ heap children. sum (map (λ child. child.size) children) + heap.rest + heap.counted ≡ heap.size };

    fn step(&mut self) -> Step<Heap, u64> {
        if self.rest > 0 {
            let size = self.rest - self.rest / 2;
            self.rest -= size;
            return Step::Forks(Heap {
                size,
                rest: size - 1,
                counted: 1,
            });
        }
        if self.counted < self.size {
            return Step::Waits;
        }
        Step::Done(self.counted)
    }

    fn joined(&mut self, output: u64) {
        self.counted += output;
    }
}

fn main(rt: HostRuntime) -> Result<()> {
    let heap = Heap {
        size: 10_000,
        rest: 9_999,
        counted: 1,
    };
    let done = Pool::run(&rt, rt.alloc(), heap).map_err(|unfinished| unfinished.why())?;
    prove!(done.output == 10_000);
    let left = done.tally.spawned - done.tally.ended;
    println!(rt; "{} grains; {left} heaps are left", done.output)?;
    Ok(())
}
