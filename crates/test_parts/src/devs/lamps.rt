//! A device of kind Pins that is no `Pins`.

ghost use Rattle.std.specs.Prelude.{◌≡◌, ◌∷◌, []};
ghost use Rattle.evm_dev.specs.Rows.{touched};
ghost use Rattle.evm_dev.specs.declared.kind.Kind.TheVariants as kinds;
ghost use Rattle.evm_dev.specs.declared.touch.Op.TheVariants as ops;

use evm_dev::{Device, Kind, Op, Touch};
use std::marker::Model;

/// Lamps, those that are looked at, and the ticks until the next look.
#[derive(Debug, Drop)]
pub(crate) struct Lamps {
    lit: u64,
    seen: u64,
    ticks: u64,
}

impl Model for Lamps {
    ghost use Rattle.std.specs.Prelude.{ℕ, List, ◌∷◌, []};

    ghost Value = { List ℕ };

    ghost view = { λ lamps. lamps.lit ∷ lamps.seen ∷ lamps.ticks ∷ [] };
}

impl Lamps {
    pub(crate) fn new() -> Lamps
        ensures { result ≡ 0 ∷ 0 ∷ 0 ∷ [] }
    {
        Lamps {
            lit: 0,
            seen: 0,
            ticks: 0,
        }
    }

    #[tactic(auto, using(evm_devs::proofs::Rising::rises_by_words))]
    fn light(&mut self, lit: u64) -> Touch
        ensures words { self.new ≡ (touched kinds.Pins ops.Put 0 lit self.old).words }
        ensures answer { result ≡ (touched kinds.Pins ops.Put 0 lit self.old).touch }
    {
        let fresh = self.seen & lit & !self.lit;
        self.lit = lit;
        Touch {
            answer: Some(0),
            raise: fresh != 0,
        }
    }

    fn store(&mut self, register: u8, value: u64) -> Touch
        ensures words { self.new ≡ (touched kinds.Pins ops.Put register value self.old).words }
        ensures answer { result ≡ (touched kinds.Pins ops.Put register value self.old).touch }
    {
        match register {
            0 => return self.light(value),
            1 => self.seen = value,
            2 => self.ticks = value,
            _ => return Touch::NONE,
        }
        Touch::answer(0)
    }

    fn load(&self, register: u8) -> Touch
        ensures words { self.now ≡ (touched kinds.Pins ops.Fetch register 0 self.now).words }
        ensures answer { result ≡ (touched kinds.Pins ops.Fetch register 0 self.now).touch }
    {
        match register {
            0 => Touch::answer(self.lit),
            1 => Touch::answer(self.seen),
            2 => Touch::answer(self.ticks),
            _ => Touch::NONE,
        }
    }
}

impl Device for Lamps {
    ghost kind_of = { λ _. kinds.Pins };

    ghost words_of = { λ lamps. lamps };

    fn kind(&self) -> Kind {
        let _ = &self.lit;
        Kind::Pins
    }

    fn words(&self, k: usize) -> Option<u64> {
        match k {
            0 => Some(self.lit),
            1 => Some(self.seen),
            2 => Some(self.ticks),
            _ => None,
        }
    }

    fn touch(&mut self, op: Op, register: u8, value: u64) -> Touch {
        match op {
            Op::Fetch => self.load(register),
            Op::Put => self.store(register, value),
        }
    }

    fn tick(&mut self) -> bool {
        if self.ticks == 0 {
            return false;
        }
        self.ticks -= 1;
        self.ticks == 0
    }
}
