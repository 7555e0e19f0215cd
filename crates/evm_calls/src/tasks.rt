//! Tasks that begin, end, and go behind others.

ghost use Rattle.std.specs.Prelude.{◌≡◌};
ghost use Rattle.evm_model.specs.Bounds.{PER_CALL, HasRoom};
ghost use Rattle.evm_model.specs.InBandCalls.{exit, yield_now, is_bad_entry, spawn};
ghost use Rattle.evm_model.specs.OobCalls.{yield_oob};

use crate::refused::refused;
use evm_model::{Errno, Outcome, Stage, TASK_LIMIT, TaskState};
use evm_parts::Parts;
use evm_ram::BASE;

/// Call 0: ends the task. Its mutexes pass on, and the in-band stage of its processor is unstalled.
#[tactic(auto, unfolding(evm_model::specs::InBandCalls::exit))]
pub fn exit(parts: &mut Parts, c: u8, t: u8) -> Outcome
    requires room { HasRoom PER_CALL parts.old }
    ensures { (parts.new, result) ≡ exit c t parts.old }
{
    parts.end_task(c, t, TaskState::Exit);
    Outcome::Exits
}

/// Call 2: puts the task behind the others that are ready in-band on the processor. Returns 0, or -1 while the in-band
/// stage is stalled.
#[tactic(auto, unfolding(evm_model::specs::InBandCalls::yield_now))]
pub fn yield_now(parts: &mut Parts, c: u8, t: u8) -> Outcome
    requires room { HasRoom PER_CALL parts.old }
    ensures { (parts.new, result) ≡ yield_now c t parts.old }
{
    if parts.is_stalled(c, Stage::InBand) {
        return refused(Errno::NotPermitted);
    }
    parts.restamp(t);
    parts.leave_in_band(c);
    Outcome::Returns(0)
}

// An entry that is no multiple of 4 in RAM of this size.
fn is_bad_entry(ram: u64, entry: u64) -> bool
    ensures { result ≡ is_bad_entry ram entry }
{
    entry % 4 != 0 || entry < BASE || entry - BASE >= ram
}

/// Call 3: creates a task of a processor, ready in-band at `entry` with `value` in a0 and other registers 0, and returns
/// its number. Returns -22 if the entry is no multiple of 4 in RAM or there is no such processor, -12 if there are 64
/// tasks.
#[tactic(auto, unfolding(evm_model::specs::InBandCalls::spawn))]
pub fn spawn(parts: &mut Parts, entry: u64, value: u64, cpu: u64) -> Outcome
    requires room { HasRoom PER_CALL parts.old }
    ensures { (parts.new, result) ≡ spawn entry value cpu parts.old }
{
    if is_bad_entry(parts.profile.ram, entry) || cpu >= u64::from(parts.processor_count()) {
        return refused(Errno::Invalid);
    }
    let number = parts.tasks.count();
    if number as usize >= TASK_LIMIT {
        return refused(Errno::NoNumber);
    }
    parts.add_task(entry, value, cpu as u8);
    Outcome::Returns(u64::from(number))
}

/// Call 50: puts the task behind the others of its rank that are ready out-of-band. Returns 0.
#[tactic(auto, unfolding(evm_model::specs::OobCalls::yield_oob))]
pub fn yield_oob(parts: &mut Parts, t: u8) -> Outcome
    requires room { HasRoom PER_CALL parts.old }
    ensures { (parts.new, result) ≡ yield_oob t parts.old }
{
    parts.restamp(t);
    Outcome::Returns(0)
}
