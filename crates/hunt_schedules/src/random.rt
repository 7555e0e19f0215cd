//! Numbers by a seed.

ghost use Rattle.std.specs.Prelude.{◌<◌};

use rand_xoshiro::SplitMix64;
use rand_xoshiro::rand_core::{Rng, SeedableRng};

/// The numbers of a seed, by the generator SplitMix64 (Steele, Lea and Flood, OOPSLA 2014).
#[derive(Debug, Drop)]
pub(crate) struct Random {
    generator: SplitMix64,
}

impl Random {
    pub(crate) fn of_seed(seed: u64) -> Random {
        Random {
            generator: SplitMix64::seed_from_u64(seed),
        }
    }

    pub(crate) fn next(&mut self) -> u64 {
        self.generator.next_u64()
    }

    /// A number below another: the remainder, so that small numbers are a little likelier.
    pub(crate) fn below(&mut self, count: u64) -> u64
        requires { 0 < count }
        ensures { result < count }
    {
        self.next() % count
    }
}
