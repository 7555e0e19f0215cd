ghost use Rattle.std.specs.Prelude.{◌≡◌, ◌∷◌, []};
ghost use Rattle.evm_dev.specs.Rows.{touched};
ghost use Rattle.evm_dev.specs.declared.kind.Kind.TheVariants as kinds;
ghost use Rattle.evm_dev.specs.declared.touch.Op.TheVariants as ops;

use crate::copying::CopyFrom;
use evm_dev::{Device, Kind, Op, Touch};
use std::marker::Model;

/// A level of 64 pins, the mask of those that are watched, and a count that falls with each tick.
#[derive(Debug, Drop)]
pub struct Pins {
    level: u64,
    mask: u64,
    count: u64,
}

impl Model for Pins {
    ghost use Rattle.std.specs.Prelude.{ℕ, List, ◌∷◌, []};

    ghost Value = { List ℕ };

    ghost view = { λ pins. pins.level ∷ pins.mask ∷ pins.count ∷ [] };
}

impl Pins {
    /// All words are 0.
    pub fn new() -> Pins
        ensures { result ≡ 0 ∷ 0 ∷ 0 ∷ [] }
    {
        Pins {
            level: 0,
            mask: 0,
            count: 0,
        }
    }

    fn fetch(&self, register: u8) -> Touch
        ensures words { self.now ≡ (touched kinds.Pins ops.Fetch register 0 self.now).words }
        ensures answer { result ≡ (touched kinds.Pins ops.Fetch register 0 self.now).touch }
    {
        match register {
            0 => Touch::answer(self.level),
            1 => Touch::answer(self.mask),
            2 => Touch::answer(self.count),
            _ => Touch::NONE,
        }
    }

    fn put(&mut self, register: u8, value: u64) -> Touch
        ensures words { self.new ≡ (touched kinds.Pins ops.Put register value self.old).words }
        ensures answer { result ≡ (touched kinds.Pins ops.Put register value self.old).touch }
    {
        match register {
            0 => self.set_level(value),
            1 => {
                self.mask = value;
                Touch::answer(0)
            }
            2 => {
                self.count = value;
                Touch::answer(0)
            }
            _ => Touch::NONE,
        }
    }

    // A watched pin that goes from 0 to 1 raises.
    #[tactic(auto, using(crate::proofs::Rising::rises_by_words))]
    fn set_level(&mut self, value: u64) -> Touch
        ensures words { self.new ≡ (touched kinds.Pins ops.Put 0 value self.old).words }
        ensures answer { result ≡ (touched kinds.Pins ops.Put 0 value self.old).touch }
    {
        let raise = self.mask & value & !self.level != 0;
        self.level = value;
        Touch {
            answer: Some(0),
            raise,
        }
    }
}

impl Device for Pins {
    ghost kind_of = { λ _. kinds.Pins };

    ghost words_of = { λ pins. pins };

    fn kind(&self) -> Kind {
        let _ = &self.level;
        Kind::Pins
    }

    fn words(&self, k: usize) -> Option<u64> {
        match k {
            0 => Some(self.level),
            1 => Some(self.mask),
            2 => Some(self.count),
            _ => None,
        }
    }

    fn touch(&mut self, op: Op, register: u8, value: u64) -> Touch {
        match op {
            Op::Fetch => self.fetch(register),
            Op::Put => self.put(register, value),
        }
    }

    fn tick(&mut self) -> bool {
        let raise = self.count == 1;
        self.count = self.count.saturating_sub(1);
        raise
    }
}

impl CopyFrom for Pins {
    fn copy_from(&mut self, other: &Pins) {
        self.level = other.level;
        self.mask = other.mask;
        self.count = other.count;
    }
}
