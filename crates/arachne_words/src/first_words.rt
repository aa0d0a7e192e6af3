//! The initial values of the atomic words of a table.
ghost use Rattle.std.specs.Prelude.{◌≡◌, ◌+◌, ◌*◌, ◌<◌, ◌≤◌, ℕ, IfOk, vec_len, slice_index};
ghost use Rattle.arachne_core.specs.declared.layout.TheConstants.{CORES, LAST_GENERATION, SLOTS};
ghost use Rattle.arachne_words.specs.FirstWords.{first_word};

use arachne_core::{Mark, MarkWord, Place};
use arachne_rule::{BLOCK, NAMES};
use std::alloc::{AllocError, Global};

fn word_at(contexts: usize, slots: u8, generation: u64, index: usize) -> u64
    requires slots { slots ≤ SLOTS }
    requires contexts { contexts ≤ CORES * slots }
    requires generation { generation ≤ LAST_GENERATION }
    requires index { index < contexts + BLOCK * CORES }
    ensures { result ≡ first_word slots contexts generation index }
{
    if index < contexts {
        let place = Place::of_context(index as u32, slots);
        return MarkWord::new(Mark::Free, false, place, generation).word();
    }
    let core = (index - contexts) / BLOCK;
    let offset = (index - contexts) % BLOCK;
    if offset < NAMES || offset - NAMES >= usize::from(slots) {
        return 0;
    }
    (core * usize::from(slots) + (offset - NAMES)) as u64
}

pub(crate) fn first_words(
    alloc: Global,
    cores: u8,
    slots: u8,
    generation: u64,
) -> Result<Vec<u64>, AllocError>
    requires cores { cores ≤ CORES }
    requires slots { slots ≤ SLOTS }
    requires generation { generation ≤ LAST_GENERATION }
    ensures length { IfOk result (λ words. vec_len words ≡ cores * slots + BLOCK * cores) }
    ensures words { IfOk result (λ words. (i : ℕ) → i < cores * slots + BLOCK * cores → slice_index words.items i ≡ first_word slots (cores * slots) generation i) }
{
    let contexts = usize::from(cores) * usize::from(slots);
    let count = contexts + BLOCK * usize::from(cores);
    let mut words = Vec::with_capacity(alloc, count)?;
    for index in 0..count {
        words.push(word_at(contexts, slots, generation, index))?;
    }
    Ok(words)
}
