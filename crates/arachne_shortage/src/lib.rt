//! For tests: takes all memory that a process can get, and gives back a little at a time, so that one allocation after
//! another is refused.
#![tactic(auto)]

ghost use Rattle.std.specs.Prelude.{◌≡◌, ◌≤◌, ◌<◌, ◌-◌, ◌/◌};
ghost use Rattle.arachne_shortage.specs.declared.TheConstants.{APART, KEPT};

use std::alloc::{AllocError, Global};

/// The size, in bytes, of the first block that is tried. After a block is refused, the next one that is tried has half
/// its size.
const LARGEST: usize = 1 << 46;

/// The size, in bytes, up to which the C library keeps freed blocks and uses them again only for blocks of the same
/// size. From this size down, the sizes that are tried are therefore `APART` bytes apart.
const KEPT: usize = 1024;

const APART: usize = 16;

/// The size, in bytes, of the smallest blocks that a [`Hoard`] takes.
const SMALLEST: usize = 16;

/// The maximum number of blocks that a [`Hoard`] takes.
const BLOCKS: usize = 150_000;

/// The number of small blocks, of `SMALL_SIZE` bytes each, which lie next to each other and can be given back.
const SMALL: usize = 20_000;

const SMALL_SIZE: usize = 40;

/// The size, in bytes, of the largest blocks that [`Hoard::take_again`] takes.
const PIECE: usize = 1 << 20;

/// All memory that a process can get, except for what was given back. Nothing is written to the blocks, so they use
/// little of the machine's memory.
#[derive(Drop)]
pub struct Hoard {
    alloc: Global,
    large: Vec<Vec<u8>>,
    small: Vec<Vec<u8>>,
}

/// Takes all blocks of at most `largest` bytes that the allocator grants, until `blocks` has no room.
fn take_all(alloc: Global, blocks: &mut Vec<Vec<u8>>, largest: usize) -> Result<(), AllocError> {
    let mut size = largest;
    for _ in 0..BLOCKS {
        if size < SMALLEST || blocks.len() == blocks.capacity() {
            break;
        }
        match Vec::with_capacity(alloc, size) {
            Ok(block) => blocks.push(block)?,
            Err(AllocError) => size = next_size(size),
        }
    }
    Ok(())
}

/// Returns the size, in bytes, that is tried after a block of `size` bytes was refused.
fn next_size(size: usize) -> usize
    requires { APART ≤ size }
    ensures half { KEPT < size → result ≡ size / 2 }
    ensures less { size ≤ KEPT → result ≡ size - APART }
{
    if size > KEPT { size / 2 } else { size - APART }
}

impl Hoard {
    /// Takes all memory that the process can get. After that, a kernel thread can start only if it reuses the stack of
    /// one that has ended.
    pub fn take(alloc: Global) -> Result<Hoard, AllocError> {
        let mut small = Vec::with_capacity(alloc, BLOCKS)?;
        let mut large = Vec::with_capacity(alloc, BLOCKS)?;
        for _ in 0..SMALL {
            small.push(Vec::with_capacity(alloc, SMALL_SIZE)?)?;
        }
        take_all(alloc, &mut large, LARGEST)?;
        Ok(Hoard {
            alloc,
            large,
            small,
        })
    }

    /// Gives back small blocks of at least `bytes` bytes together, or all small blocks if they have fewer bytes.
    pub fn give_back(&mut self, bytes: usize) {
        let mut left = bytes;
        for _ in 0..BLOCKS {
            if left == 0 {
                break;
            }
            let Some(block) = self.small.pop() else {
                break;
            };
            left = left.saturating_sub(block.capacity());
        }
    }

    /// Takes the memory that `give_back` has freed and that nobody has allocated since.
    pub fn take_again(&mut self) -> Result<(), AllocError> {
        take_all(self.alloc, &mut self.small, PIECE)
    }
}
