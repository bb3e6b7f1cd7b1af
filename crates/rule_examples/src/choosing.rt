//! Random choices.

use rand_core::Rng;
use rand_pcg::Pcg32;

/// Random choices: the same seed gives the same ones.
#[derive(Drop)]
pub(crate) struct Choices {
    words: Pcg32,
}

impl Choices {
    pub(crate) fn new(seed: u64) -> Choices {
        Choices {
            words: Pcg32::new(seed, 0),
        }
    }

    /// A number below another; 0 where none is.
    pub(crate) fn below(&mut self, count: usize) -> usize {
        (self.words.next_u32() as usize)
            .checked_rem(count)
            .unwrap_or(0)
    }

    /// True in one of so many cases.
    pub(crate) fn one_in(&mut self, count: usize) -> bool {
        self.below(count) == 0
    }

    /// One of some things.
    pub(crate) fn one_of<T: Copy>(&mut self, things: &[T]) -> Option<T> {
        things.get(self.below(things.len())).copied()
    }
}
