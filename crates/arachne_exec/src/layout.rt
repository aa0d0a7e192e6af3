//! The indexes and the initial values of the atomic words in an executor's table.
ghost use Rattle.std.specs.Prelude.{◌≡◌, ℕ, ◌+◌, ◌*◌, ◌/◌, ◌%◌, ◌^◌, ◌<◌, ◌≤◌, IfOk, vec_len, slice_index};
ghost use Rattle.arachne_exec.specs.Layout.{summary_at, ready_at, free_at, mark_at, others, name_of, worker_of};
ghost use Rattle.arachne_exec.specs.First.{AreFirstWords, first_word};

use std::alloc::{AllocError, Global};

/// The number of job slots in a block, and of blocks in a shard.
pub const PLACES_PER_BLOCK: usize = 64;

pub const BLOCKS_PER_SHARD: usize = 64;

/// The greatest number of workers of an executor. Worker `w` runs the jobs of shards `w`, `w + 64`, and so on.
pub const WORKERS: usize = 64;

/// The greatest number of shards (4,096 slots each) of an executor.
pub const MOST_SHARDS: usize = 256;

pub(crate) const IDLE: usize = 0;

pub(crate) const NUMBERS: usize = 8;

/// The number of jobs after which a slot is retired: it never gets another job.
pub(crate) const LAST_GENERATION: u64 = (1 << 44) - 1;

/// Returns the slot in which the job with this name is, or was before it ended.
pub fn place_of(name: u64) -> usize
    ensures { result ≡ name % 2 ^ 20 }
{
    (name % (1 << 20)) as usize
}

/// Returns the number of the worker that runs the jobs of this slot.
pub fn worker_of_place(place: usize) -> usize
    ensures { result ≡ worker_of (place / 4096) }
{
    place / 4096 % 64
}

pub(crate) fn name_at(place: usize, mark: u64) -> u64
    requires { place < 1048576 }
    ensures { result ≡ name_of place mark }
{
    place as u64 + (1 << 20) * (mark / 4 % (1 << 44))
}

pub(crate) fn summary_word(shard: usize) -> usize
    requires { shard < 256 }
    ensures { result ≡ summary_at shard }
{
    24 + 96 * shard
}

pub(crate) fn ready_word(block: usize) -> usize
    requires { block < 16384 }
    ensures { result ≡ ready_at block }
{
    16 + 96 * block
}

pub(crate) fn free_word(block: usize) -> usize
    requires { block < 16384 }
    ensures { result ≡ free_at block }
{
    32 + 96 * block
}

pub(crate) fn mark_word(place: usize) -> usize
    requires { place < 1048576 }
    ensures { result ≡ mark_at place }
{
    48 + 96 * (place / 64) + place % 64
}

pub(crate) fn bit(index: usize) -> u64
    requires { index < 64 }
    ensures { result ≡ 2 ^ index }
{
    1 << index as u32
}

pub(crate) fn all_but(index: usize) -> u64
    requires { index < 64 }
    ensures { result ≡ others index }
{
    u64::MAX - bit(index)
}

fn first_word_at(index: usize) -> u64
    ensures { result ≡ first_word index }
{
    if index == NUMBERS {
        u64::MAX
    } else if index % 96 == 32 {
        u64::MAX
    } else {
        0
    }
}

pub(crate) fn first_words(alloc: Global, blocks: usize) -> Result<Vec<u64>, AllocError>
    requires { blocks ≤ 16384 }
    ensures { IfOk result (λ words. AreFirstWords blocks words.items) }
{
    let count = 16 + 96 * blocks;
    let mut words = Vec::with_capacity(alloc, count)?;
    for index in 0..count {
        words.push(first_word_at(index))?;
    }
    Ok(words)
}

pub(crate) fn empty_slots(alloc: Global, blocks: usize) -> Result<Vec<u64>, AllocError>
    requires { blocks ≤ 16384 }
    ensures { IfOk result (λ slots. (vec_len slots ≡ 64 * blocks) × ((i : ℕ) → slice_index slots.items i ≡ 0)) }
{
    let mut slots = Vec::with_capacity(alloc, 64 * blocks)?;
    for _ in 0..4 * blocks {
        slots.extend_from_slice(&[0; 16])?;
    }
    Ok(slots)
}
