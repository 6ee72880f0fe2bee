//! Chance that is the same at each run of the tests.
ghost use Rattle.std.specs.Prelude.{◌<◌};

use rand_core::Rng;
use rand_pcg::Pcg32;

/// A source of numbers by chance that are the same at each run of the tests.
#[derive(Drop)]
pub(crate) struct Chance {
    generator: Pcg32,
}

impl Chance {
    /// Makes a source whose numbers follow from the seed alone.
    pub fn new(seed: u64) -> Chance {
        Chance {
            generator: Pcg32::new(seed, 1),
        }
    }

    /// Gives a number below `bound`.
    pub(crate) fn below(&mut self, bound: u32) -> u32
        requires { 0 < bound }
        ensures { result < bound }
    {
        self.generator.next_u32() % bound
    }

    /// Answers true once in `bound` calls, on the average.
    pub(crate) fn is_one_in(&mut self, bound: u32) -> bool
        requires { 0 < bound }
    {
        self.below(bound) == 0
    }
}
