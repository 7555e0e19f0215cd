//! The stages of a processor, and the stage of a task.

ghost use Rattle.std.specs.Prelude.{◌≡◌};
ghost use Rattle.evm_model.specs.Bounds.{PER_CALL, HasRoom};
ghost use Rattle.evm_model.specs.OobCalls.{stall, switch_oob, switch_in_band, state_bits, migrate};
ghost use Rattle.evm_model.specs.Stages.{bit};

use crate::refused::refused;
use evm_model::{Errno, Outcome, Stage};
use evm_parts::Parts;

/// Calls 4 and 5, 51 and 52: stalls a stage of the processor, or unstalls it. Returns 1 if it was stalled, else 0.
#[tactic(auto, unfolding(evm_model::specs::OobCalls::stall))]
pub fn stall(parts: &mut Parts, stage: Stage, stalled: bool, c: u8) -> Outcome
    ensures { (parts.new, result) ≡ stall stage stalled c parts.old }
{
    let old = parts.is_stalled(c, stage);
    parts.set_stall(c, stage, stalled);
    Outcome::Returns(u64::from(old))
}

/// Call 32: returns 0. The task is out-of-band by then, as an out-of-band call promotes it.
#[tactic(auto, unfolding(evm_model::specs::OobCalls::switch_oob))]
pub fn switch_oob(parts: &Parts) -> Outcome
    ensures { (parts.now, result) ≡ switch_oob parts.now }
{
    Outcome::Returns(0)
}

/// Call 33: the task goes in-band, with a fresh stamp. Returns 0, or -1 while the out-of-band stage is stalled.
#[tactic(auto, unfolding(evm_model::specs::OobCalls::switch_in_band))]
pub fn switch_in_band(parts: &mut Parts, c: u8, t: u8) -> Outcome
    requires room { HasRoom PER_CALL parts.old }
    ensures { (parts.new, result) ≡ switch_in_band c t parts.old }
{
    if parts.is_stalled(c, Stage::OutOfBand) {
        return refused(Errno::NotPermitted);
    }
    parts.demote(c, t);
    Outcome::Returns(0)
}

/// Call 55: moves the task to processor `cpu`, ready there with a fresh stamp; a weak task that owns no mutex goes in-band.
/// Returns 0, at once if it is there already; -22 if there is no such processor; -16 while the out-of-band stage of its own
/// is stalled.
#[tactic(auto, using(crate::proofs::Objects::objects), unfolding(evm_model::specs::OobCalls::migrate))]
pub fn migrate(parts: &mut Parts, c: u8, t: u8, cpu: u64) -> Outcome
    requires room { HasRoom PER_CALL parts.old }
    ensures { (parts.new, result) ≡ migrate c t cpu parts.old }
{
    if cpu >= u64::from(parts.processor_count()) {
        return refused(Errno::Invalid);
    }
    if cpu == u64::from(c) {
        return Outcome::Returns(0);
    }
    if parts.is_stalled(c, Stage::OutOfBand) {
        return refused(Errno::Busy);
    }
    parts.move_task(t, cpu as u8);
    Outcome::Returns(0)
}

fn bit(b: bool) -> u64
    ensures { result ≡ bit b }
{
    u64::from(b)
}

/// Call 54, on either stage: returns a sum of 1 if the task is out-of-band, 2 if it has a class, and 4 if its stage is
/// stalled.
#[tactic(auto, unfolding(evm_model::specs::OobCalls::state_bits))]
pub fn state_bits(parts: &Parts, c: u8, t: u8) -> Outcome
    ensures { (parts.now, result) ≡ state_bits c t parts.now }
{
    let oob = parts.tasks.is_oob(Some(t));
    let attached = parts.is_attached(t);
    let stalled = parts.is_stalled(c, parts.stage_at(t));
    Outcome::Returns(bit(oob) + 2 * bit(attached) + 4 * bit(stalled))
}
