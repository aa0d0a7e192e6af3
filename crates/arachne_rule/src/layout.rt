//! The layout of a table's words: first the mark words (packed states) of all contexts (thread records). Then each core
//! has a block, with its occupancy word (bits of occupied slots), and for each of its slots the number of the context
//! there.
use arachne_core::SLOTS;

/// The number of words in two cache lines, which processors fetch together.
pub const SPACING: usize = 16;

/// The offset, in words, of the occupancy word (bits of occupied slots) in a core's block. The two cache lines before
/// that word and the two after it have no other word.
pub const OCCUPANCY: usize = SPACING;

/// The offset, in words, of a core's place words (the numbers of the contexts at its slots) in the core's block.
pub const NAMES: usize = OCCUPANCY + SPACING;

/// The number of words in the block of each core.
pub const BLOCK: usize = NAMES + SLOTS as usize;
