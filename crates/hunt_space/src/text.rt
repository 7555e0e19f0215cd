//! The text: the part of RAM from which private rows are taken.

ghost use Rattle.std.specs.Prelude.{◌≡◌, ◌+◌, ◌≤◌, ◌<◌, ℕ, true, slice_get, Option};
ghost use Rattle.evm_ram.specs.Width.{bytes_of};
ghost use Rattle.hunt_space.specs.Effects.{is_private};
ghost use Rattle.hunt_space.specs.Passing.{IsPrivate};
ghost use Rattle.evm_exec.specs.declared.hart.Hart.{Hart};
ghost use Rattle.law_runs.specs.Ahead.{actor, private_hart, text};
ghost use Rattle.law_runs.specs.Sparing.{effect_spares, spares_text};

use crate::rows::{actor, effect_of_task, next_effect};
use crate::undebugged::is_undebugged;
use evm_exec::Effect;
use evm_ram::{Image, Width};
use hunt_schedules::{AnyDevice, Machine};
use hunt_search::Target;

/// The addresses of the text. Its end is excluded.
#[derive(Clone, Copy, Debug, PartialEq, Eq)]
pub struct TextSpan {
    /// The first.
    pub low: u64,
    /// The end.
    pub high: u64,
}

// Whether an effect is of the registers and the pc alone.
fn is_private(effect: Option<Effect>) -> bool
    ensures { result ≡ is_private effect }
{
    matches!(effect, Some(Effect::Next { .. }))
}

impl TextSpan {
    /// No address.
    pub(crate) fn none() -> TextSpan
        ensures { result.high ≡ 0 }
    {
        TextSpan { low: 16, high: 0 }
    }

    /// That of a program: the segment that has the entry. Nothing where a watchdog may demote, and that is looked for.
    pub(crate) fn of(target: &Target<'_>) -> TextSpan
        ensures { target.now.wanted.now.demotion ≡ true → 0 < result.high → target.now.boot.now.watchdog ≡ 0 }
    {
        if target.wanted.demotion && target.boot.watchdog != 0 {
            return TextSpan::none();
        }
        TextSpan::of_image(target.image)
    }

    /// The bytes of the segment that has the entry.
    pub(crate) fn of_image(image: &Image) -> TextSpan {
        for segment in image.segments() {
            let low = segment.address();
            let span = TextSpan {
                low,
                high: low.saturating_add(segment.bytes().len() as u64),
            };
            if span.has(image.entry()) {
                return span;
            }
        }
        TextSpan::none()
    }

    // Whether this is no address, so that no store hits the text.
    fn is_none(self) -> bool
        ensures low { result ≡ true → self.low ≡ 16 }
        ensures high { result ≡ true → self.high ≡ 0 }
    {
        self.low == 16 && self.high == 0
    }

    /// Whether an address is one.
    fn has(self, address: u64) -> bool
        ensures low { result ≡ true → self.low ≤ address }
        ensures high { result ≡ true → address < self.high }
    {
        if address < self.low {
            return false;
        }
        address < self.high
    }

    // Whether bytes end before the text.
    fn is_behind(self, address: u64, width: Width) -> bool
        ensures { result ≡ true → address + bytes_of width ≤ self.low }
    {
        match address.checked_add(width.bytes()) {
            Some(end) => end <= self.low,
            None => false,
        }
    }

    // Whether an address is behind each word of the text.
    fn is_before(self, address: u64) -> bool
        ensures { result ≡ true → self.high + 3 ≤ address }
    {
        match self.high.checked_add(3) {
            Some(end) => end <= address,
            None => false,
        }
    }

    // Whether a store hits no byte of the text.
    fn is_missed_at(self, address: u64, width: Width) -> bool
        ensures { result ≡ true → (value : ℕ) → effect_spares self.low self.high (Effect.Store width address value) ≡ true }
    {
        if self.is_behind(address, width) {
            return true;
        }
        self.is_before(address)
    }

    // Whether an effect stores to no byte of the text.
    fn is_missed_by(self, effect: Effect) -> bool
        ensures { result ≡ true → effect_spares self.low self.high effect ≡ true }
    {
        match effect {
            Effect::Store { width, address, .. } => self.is_missed_at(address, width),
            Effect::Next { .. }
            | Effect::Load { .. }
            | Effect::Call
            | Effect::Break
            | Effect::Misaligned => true,
        }
    }

    // Whether the next instruction of a task does.
    fn is_spared_by_task(self, machine: &Machine<AnyDevice>, t: u8) -> bool
        ensures { result ≡ true → spares_text self.low self.high machine.now.board.memory (slice_get machine.now.board.parts.harts t) ≡ true }
    {
        match effect_of_task(machine, t) {
            None => true,
            Some(effect) => self.is_missed_by(effect),
        }
    }

    // Whether the next instruction of a processor does.
    fn is_spared_by(self, machine: &Machine<AnyDevice>, cpu: u8) -> bool
        ensures { result ≡ true → (t : ℕ) → actor cpu machine.now.board ≡ Option.Some t → spares_text self.low self.high machine.now.board.memory (slice_get machine.now.board.parts.harts t) ≡ true }
    {
        match actor(machine, cpu) {
            None => true,
            Some(t) => self.is_spared_by_task(machine, t),
        }
    }

    // Whether those of some processors do.
    fn are_spared_by(self, machine: &Machine<AnyDevice>, cpus: &[u8]) -> bool
        ensures { result ≡ true → (i c t : ℕ) → slice_get cpus.now i ≡ Option.Some c → actor c machine.now.board ≡ Option.Some t → spares_text self.low self.high machine.now.board.memory (slice_get machine.now.board.parts.harts t) ≡ true }
    {
        'cpus: for cpu in cpus {
            if !self.is_spared_by(machine, *cpu) {
                return false;
            }
        }
        true
    }

    /// Whether the next instructions of some processors store to no byte of the text.
    pub(crate) fn is_spared(self, machine: &Machine<AnyDevice>, cpus: &[u8]) -> bool
        ensures { result ≡ true → (i c t : ℕ) → slice_get cpus.now i ≡ Option.Some c → actor c machine.now.board ≡ Option.Some t → spares_text self.low self.high machine.now.board.memory (slice_get machine.now.board.parts.harts t) ≡ true }
    {
        if self.is_none() {
            return true;
        }
        self.are_spared_by(machine, cpus)
    }

    // Whether a hart is at a private row of the text.
    fn has_private(self, machine: &Machine<AnyDevice>, t: u8) -> bool
        ensures { result ≡ true → (next : Hart) × (private_hart (text self.low self.high machine.now.board.memory) (slice_get machine.now.board.parts.harts t) ≡ Option.Some next) }
    {
        let Some(hart) = machine.hart(t) else {
            return false;
        };
        if !self.has(hart.pc) {
            return false;
        }
        is_private(next_effect(machine, &hart))
    }

    /// Whether a processor does a private row of the text next.
    pub(crate) fn is_next(self, machine: &Machine<AnyDevice>, cpu: u8) -> bool
        ensures { result ≡ true → IsPrivate self.low self.high cpu machine.now }
    {
        if !is_undebugged(machine) {
            return false;
        }
        match actor(machine, cpu) {
            None => false,
            Some(t) => self.has_private(machine, t),
        }
    }
}
