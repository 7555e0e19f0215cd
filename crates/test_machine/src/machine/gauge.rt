//! A device of kind Pins that is made otherwise than the one of the program: it looks at one pin after the other.

ghost use Rattle.std.specs.Prelude.{◌≡◌, ◌<◌, ◌≤◌, ◌∷◌, []};
ghost use Rattle.evm_dev.specs.Pins.{any_pin, is_high, is_rising};
ghost use Rattle.evm_dev.specs.Rows.{touched};
ghost use Rattle.evm_dev.specs.declared.kind.Kind.TheVariants as kinds;
ghost use Rattle.evm_dev.specs.declared.touch.Op.TheVariants as ops;

use evm_dev::{Device, Kind, Op, Touch};
use std::marker::Model;

/// A level, of which some pins are watched, and the ticks that are left.
#[derive(Debug, Drop)]
pub(crate) struct Gauge {
    level: u64,
    watched: u64,
    left: u64,
}

impl Model for Gauge {
    ghost use Rattle.std.specs.Prelude.{ℕ, List, ◌∷◌, []};

    ghost Value = { List ℕ };

    ghost view = { λ gauge. gauge.level ∷ gauge.watched ∷ gauge.left ∷ [] };
}

fn is_high(word: u64, pin: u32) -> bool
    requires { pin < 64 }
    ensures { result ≡ is_high word pin }
{
    (word >> pin) & 1 == 1
}

fn is_rising(mask: u64, before: u64, after: u64, pin: u32) -> bool
    requires { pin < 64 }
    ensures { result ≡ is_rising mask before after pin }
{
    is_high(mask, pin) && !is_high(before, pin) && is_high(after, pin)
}

#[tactic(auto, using(crate::proofs::Risen::pin_rules))]
fn any_rising(mask: u64, before: u64, after: u64) -> bool
    ensures { result ≡ any_pin (is_rising mask before after) 64 }
{
    let mut any = false;
    for pin in 0..64u32 {
        any = is_rising(mask, before, after, pin) || any;
    }
    any
}

impl Gauge {
    /// A level, and no pin that is watched.
    pub(crate) fn at(level: u64) -> Gauge
        ensures { result ≡ level ∷ 0 ∷ 0 ∷ [] }
    {
        Gauge {
            level,
            watched: 0,
            left: 0,
        }
    }

    /// Its level.
    pub(crate) fn level(&self) -> u64 {
        self.level
    }

    fn fetch(&self, register: u8) -> Touch
        ensures words { self.now ≡ (touched kinds.Pins ops.Fetch register 0 self.now).words }
        ensures answer { result ≡ (touched kinds.Pins ops.Fetch register 0 self.now).touch }
    {
        match register {
            0 => Touch::answer(self.level),
            1 => Touch::answer(self.watched),
            2 => Touch::answer(self.left),
            _ => Touch::NONE,
        }
    }

    #[tactic(auto, unfolding(evm_dev::specs::Pins::rises))]
    fn set_level(&mut self, level: u64) -> Touch
        ensures words { self.new ≡ (touched kinds.Pins ops.Put 0 level self.old).words }
        ensures answer { result ≡ (touched kinds.Pins ops.Put 0 level self.old).touch }
    {
        let raise = any_rising(self.watched, self.level, level);
        self.level = level;
        Touch {
            answer: Some(0),
            raise,
        }
    }

    fn put(&mut self, register: u8, value: u64) -> Touch
        ensures words { self.new ≡ (touched kinds.Pins ops.Put register value self.old).words }
        ensures answer { result ≡ (touched kinds.Pins ops.Put register value self.old).touch }
    {
        match register {
            0 => return self.set_level(value),
            1 => self.watched = value,
            2 => self.left = value,
            _ => return Touch::NONE,
        }
        Touch::answer(0)
    }
}

impl Device for Gauge {
    ghost kind_of = { λ _. kinds.Pins };

    ghost words_of = { λ gauge. gauge };

    fn kind(&self) -> Kind {
        let _ = &self.level;
        Kind::Pins
    }

    fn words(&self, k: usize) -> Option<u64> {
        match k {
            0 => Some(self.level),
            1 => Some(self.watched),
            2 => Some(self.left),
            _ => None,
        }
    }

    fn touch(&mut self, op: Op, register: u8, value: u64) -> Touch {
        match op {
            Op::Fetch => self.fetch(register),
            Op::Put => self.put(register, value),
        }
    }

    fn tick(&mut self) -> bool {
        let raise = self.left == 1;
        self.left = self.left.saturating_sub(1);
        raise
    }
}
