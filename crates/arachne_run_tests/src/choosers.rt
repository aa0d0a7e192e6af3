//! A replacement for a core's *chooser* (the random generator by which its forks choose cores), which gives a test's
//! numbers. Each fork draws a word from the chooser. The word's halves are two cores, one of which the fork chooses.
ghost use Rattle.std.specs.Prelude.{◌≡◌, ◌+◌, ◌%◌, ◌^◌};
ghost use Rattle.rand_core.specs.Steps.{stream_of, steps_u64_high};

use rand_core::Rng;
use rand_core::utils::{NextWord, fill_bytes_via_u64};

/// Three numbers that give the words of a run's choosers, modulo 2^64: the first word of core 0's chooser, the
/// difference from each word to the next, and the difference from each core's first word to the next core's.
#[derive(Clone, Copy)]
pub struct Draws(pub u64, pub u64, pub u64);

/// A word's two halves are the two cores that a fork draws.
pub const ONE_EACH: u64 = 0x0000_0001_0000_0001;

pub const ZEROS: Draws = Draws(0, 0, 0);

pub const CORE_ONE: Draws = Draws(ONE_EACH, 0, 0);

pub const CORE_THREE: Draws = Draws(3 * ONE_EACH, 0, 0);

pub const IN_TURN: Draws = Draws(ONE_EACH, ONE_EACH, 0);

pub const SPREAD: Draws = Draws(
    0x9E37_79B9_7F4A_7C15,
    0xBF58_476D_1CE4_E5B9,
    0x94D0_49BB_1331_11EB,
);

impl Draws {
    pub fn of(self, core: u64) -> Progression {
        Progression {
            word: self.0.wrapping_add(self.2.wrapping_mul(core)),
            step: self.1,
        }
    }
}

/// A chooser (a core's random generator) whose words grow by `step`, modulo 2^64.
#[derive(Clone, Copy, Drop)]
pub struct Progression {
    pub word: u64,
    pub step: u64,
}

impl NextWord<u64> for Progression {
    ghost step = { λ p. (p.word, record p { word = (p.word + p.step) % 2 ^ 64 }) };

    fn next_word(&mut self) -> u64 {
        let word = self.word;
        self.word = word.wrapping_add(self.step);
        word
    }
}

impl Rng for Progression {
    ghost stream = { stream_of (steps_u64_high (λ p. (p.word, record p { word = (p.word + p.step) % 2 ^ 64 }))) };

    fn next_u32(&mut self) -> u32 {
        (self.next_word() >> 32) as u32
    }

    fn next_u64(&mut self) -> u64 {
        self.next_word()
    }

    fn fill_bytes(&mut self, dst: &mut [u8]) {
        fill_bytes_via_u64(self, dst)
    }
}
