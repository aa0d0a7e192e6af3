//! Decides at which slot each search for a job begins, so that jobs that are often ready don't keep other jobs waiting.
ghost use Rattle.std.specs.Prelude.{◌≡◌, ◌≢◌, ◌⊎◌, ◌↔◌, ℕ, ◌+◌, ◌-◌, ◌*◌, ◌/◌, ◌%◌, ◌^◌, ◌<◌, ◌≤◌, false, true, IsTrue, IfSome, IfNone};
ghost use Rattle.std.specs.Int.{bit_at};
ghost use Rattle.std.specs.Int.RustNames.{bit_and};
ghost use Rattle.arachne_exec.specs.Layout.{others};
ghost use Rattle.arachne_exec.specs.Turns.{IsFirstFrom, HasMoreBehind};

use crate::answers::HeldJob;
use crate::layout::all_but;

pub(crate) fn lowest_index(word: u64) -> usize
    requires { 0 < word }
    ensures low { result < 64 }
    ensures there { bit_at word result ≡ 1 }
    ensures lowest { (index : ℕ) → index < result → bit_at word index ≡ 0 }
{
    word.trailing_zeros() as usize
}

pub(crate) fn first_from(word: u64, from: usize) -> usize
    requires { 0 < word }
    ensures { IsFirstFrom word from result }
{
    let from = from % 64;
    let ahead = word >> from as u32;
    if ahead == 0 {
        lowest_index(word)
    } else {
        from + lowest_index(ahead)
    }
}

pub(crate) fn has_more(word: u64, index: usize) -> bool
    requires { index < 64 }
    ensures { IsTrue result ↔ (2 * 2 ^ index ≤ word) }
{
    word >> index as u32 > 1
}

/// Returns the shard at position `index` of a search from shard `first` upwards, and then from shard 0.
pub(crate) fn shard_in_turn(first: usize, index: usize, count: usize) -> usize
    requires first { first < count }
    requires index { index < count }
    ensures ahead { first + index < count → result ≡ first + index }
    ensures round { count ≤ first + index → result + count ≡ first + index }
{
    if index < count - first {
        first + index
    } else {
        index - (count - first)
    }
}

/// The blocks of a shard that a search must still visit, one bit each, and the block at which the search began.
#[derive(Drop)]
pub(crate) struct Unsearched {
    blocks: u64,
    from: usize,
}

impl Unsearched {
    pub(crate) fn next(&self) -> Option<usize>
        ensures some { IfSome result (λ index. IsFirstFrom self.now.blocks self.now.from index) }
        ensures none { IfNone result (self.now.blocks ≡ 0) }
    {
        if self.blocks == 0 {
            return None;
        }
        Some(first_from(self.blocks, self.from))
    }

    pub(crate) fn pass(&mut self, block: usize)
        ensures { self.new ≡ record self.old { blocks = bit_and self.old.blocks (others (block % 64)) } }
    {
        self.blocks &= all_but(block % 64);
    }

    pub(crate) fn has_more(&self, index: usize) -> bool
        requires { index < 64 }
        ensures { IsTrue result ↔ HasMoreBehind self.now index }
    {
        index >= self.from && has_more(self.blocks, index)
    }
}

/// A job that a search has taken. `more` is true if a higher slot of the job's block (64 slots) had a ready job too.
#[derive(Drop)]
pub(crate) struct TakenJob {
    pub(crate) job: HeldJob,
    pub(crate) more: bool,
}

#[derive(Clone, Copy, Drop)]
pub(crate) struct SearchTurn {
    place: usize,
}

impl SearchTurn {
    pub(crate) fn start() -> SearchTurn
        ensures { result.place ≡ 0 }
    {
        SearchTurn { place: 0 }
    }

    /// Returns where the next search begins after a job was taken from slot `place`: at the next slot if `in_block`, at
    /// the next block if `in_shard`, and otherwise at the worker's next shard.
    pub(crate) fn behind(place: usize, in_block: bool, in_shard: bool) -> SearchTurn
        requires { place < 1048576 }
        ensures in_block { in_block ≡ true → result.place ≡ place + 1 }
        ensures in_shard { in_block ≡ false → in_shard ≡ true → result.place ≡ place - place % 64 + 64 }
        ensures next_shard { in_block ≡ false → in_shard ≡ false → result.place ≡ place - place % 4096 + 262144 }
    {
        let place = if in_block {
            place + 1
        } else if in_shard {
            place - place % 64 + 64
        } else {
            place - place % 4096 + 4096 * 64
        };
        SearchTurn { place }
    }

    pub(crate) fn first_shard(&self, count: usize) -> usize
        ensures within { (result ≡ 0) ⊎ (result < count) }
        ensures turn { self.now.place / 262144 < count → result ≡ self.now.place / 262144 }
        ensures round { count ≤ self.now.place / 262144 → result ≡ 0 }
    {
        let first = self.place / (4096 * 64);
        if first < count { first } else { 0 }
    }

    pub(crate) fn unsearched(&self, shard: usize, shown: u64) -> Unsearched
        ensures blocks { result.blocks ≡ shown }
        ensures turn { self.now.place / 4096 ≡ shard → result.from ≡ self.now.place / 64 % 64 }
        ensures other { self.now.place / 4096 ≢ shard → result.from ≡ 0 }
    {
        let from = if self.place / 4096 == shard {
            self.place / 64 % 64
        } else {
            0
        };
        Unsearched {
            blocks: shown,
            from,
        }
    }

    pub(crate) fn first_place(&self, block: usize) -> usize
        ensures turn { self.now.place / 64 ≡ block → result ≡ self.now.place % 64 }
        ensures other { self.now.place / 64 ≢ block → result ≡ 0 }
    {
        if self.place / 64 == block {
            self.place % 64
        } else {
            0
        }
    }
}
