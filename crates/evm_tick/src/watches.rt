ghost use Rattle.std.specs.Prelude.{◌≡◌, ◌+◌, ◌<◌, ◌≤◌, ℕ, true, replicate, slice_get};
ghost use Rattle.evm_model.specs.Lists.{change};
ghost use Rattle.evm_model.specs.Watch.{or_zero};

use arrayvec::ArrayVec;
use evm_model::PROCESSOR_LIMIT;
use evm_room::copy_list;
use std::marker::Model;

/// For how many ticks in a row the watchdog has found the out-of-band task of each processor current.
#[derive(Debug, Drop)]
pub struct Watches {
    ticks: ArrayVec<u32, PROCESSOR_LIMIT>,
    // Whether a tick was ever counted: without a watchdog none is.
    counted: bool,
}

impl Model for Watches {
    ghost use Rattle.std.specs.Prelude.{List, ℕ};
    ghost use Rattle.evm_tick.specs.Counted.{AreAtRest};

    ghost Value = { List ℕ };

    ghost invariant = { λ w. AreAtRest w.counted w.ticks.items };

    ghost view = { λ w. w.ticks.items };
}

impl Watches {
    /// No ticks yet, for this number of processors.
    #[tactic(auto, using(crate::proofs::Zeros::one_more, crate::proofs::Rested::rested))]
    pub fn new(processors: u64) -> Watches
        requires { processors ≤ PROCESSOR_LIMIT }
        ensures { result ≡ replicate processors 0 }
    {
        let mut ticks = ArrayVec::new();
        for c in 0..processors {
            ticks.push(0);
        }
        Watches {
            ticks,
            counted: false,
        }
    }

    /// As many ticks are counted on each processor as elsewhere. Takes no memory.
    pub fn copy_from(&mut self, other: &Watches)
        ensures { self.new ≡ other.now }
    {
        copy_list(&mut self.ticks, &other.ticks);
        self.counted = other.counted;
    }

    /// The ticks of a processor; 0 where there is no such processor.
    pub fn get(&self, c: u8) -> u32
        ensures { result ≡ or_zero (slice_get self.now c) }
    {
        match self.ticks.as_slice().get(c as usize) {
            None => 0,
            Some(ticks) => *ticks,
        }
    }

    /// One tick more on a processor.
    pub fn count(&mut self, c: u8)
        requires { or_zero (slice_get self.old c) < u32.MAX }
        ensures { self.new ≡ change (λ n. n + 1) self.old c }
    {
        self.counted = true;
        if let Some(ticks) = self.ticks.get_mut(c as usize) {
            *ticks += 1;
        }
    }

    /// Whether nothing was ever counted.
    #[inline(always)]
    pub fn is_at_rest(&self) -> bool
        ensures { result ≡ true → (c : ℕ) → or_zero (slice_get self.now c) ≡ 0 }
    {
        !self.counted
    }

    /// Nothing is counted on a processor any more.
    #[tactic(auto, using(crate::proofs::Rested::rested))]
    pub fn rest(&mut self, c: u8)
        ensures { self.new ≡ change (λ _. 0) self.old c }
    {
        if let Some(ticks) = self.ticks.get_mut(c as usize) {
            *ticks = 0;
        }
    }
}
