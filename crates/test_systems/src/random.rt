// Random bytes of the tests.

use rand_core::Rng;
use rand_core::utils::{self, NextWord};

/// Gives this word, and each next one is so much more.
#[derive(Clone, Copy)]
pub struct Words {
    pub word: u32,
    pub step: u32,
}

/// Gives zeros only.
pub const ZEROS: Words = Words { word: 0, step: 0 };

impl NextWord<u32> for Words {
    ghost use Rattle.std.specs.Prelude.{◌+◌, ◌%◌, ◌^◌};

    ghost step = { λ s. (s.word, record { word = (s.word + s.step) % 2 ^ 32; step = s.step }) };

    fn next_word(&mut self) -> u32 {
        let word = self.word;
        self.word = word.wrapping_add(self.step);
        word
    }
}

impl Rng for Words {
    ghost use Rattle.std.specs.Prelude.{◌+◌, ◌%◌, ◌^◌};
    ghost use Rattle.rand_core.specs.Steps.{stream_of, steps_u32};

    ghost stream = { stream_of (steps_u32 (λ s. (s.word, record { word = (s.word + s.step) % 2 ^ 32; step = s.step }))) };

    fn next_u32(&mut self) -> u32 {
        self.next_word()
    }

    fn next_u64(&mut self) -> u64 {
        utils::next_u64_via_u32(self)
    }

    fn fill_bytes(&mut self, dst: &mut [u8]) {
        utils::fill_bytes_via_u32(self, dst)
    }
}
