//! The greatest numbers of cores and of thread slots per core, and the widths of the fields of a packed word.
/// The greatest number of cores of a table.
pub const CORES: u8 = 64;

/// The greatest number of thread slots of a core. Each slot has one context (thread record).
pub const SLOTS: u8 = 56;

pub const MASK_BITS: u8 = SLOTS;

/// The last generation (count of ended threads) of a context (thread record), which is never used after it.
pub const LAST_GENERATION: u64 = (1 << GENERATION_BITS) - 1;

/// The width in bits of the core's number in a mark word (a thread record's packed state).
pub const CORE_BITS: u32 = 6;

/// The width in bits of the generation (count of ended threads) in a mark word (a thread record's packed state).
pub const GENERATION_BITS: u32 = 48;

/// The width in bits of the core's number in the older layout of a mark word (a thread record's packed state).
pub const FIRST_CORE_BITS: u32 = 4;
