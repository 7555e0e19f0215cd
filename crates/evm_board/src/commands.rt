ghost use Rattle.std.specs.Prelude.{◌≡◌, ◌<◌, ◌≤◌, ◌-◌, map, false};
ghost use Rattle.evm_model.specs.Bounds.{COUNT_LIMIT, PipesUpTo};
ghost use Rattle.evm_model.specs.Commands.{tick, set_bits, on_current};
ghost use Rattle.evm_model.specs.Harts.{set_register, set_pc};
ghost use Rattle.evm_model.specs.Pipes.{raise};
ghost use Rattle.evm_model.specs.Refusals.{bad_register};

use evm_isa::Register;
use evm_model::PROCESSOR_LIMIT;
use evm_settle::Parts;

/// Sets a processor's stop and skip bits.
#[tactic(auto, unfolding(evm_model::specs::Commands::set_bits))]
pub(crate) fn set_bits(parts: &mut Parts, stopped: bool, skip: bool, c: u8)
    ensures { parts.new ≡ set_bits stopped skip c parts.old }
{
    parts.set_bits(stopped, skip, c);
}

// Raises line 0 on every processor.
fn raise_timers(parts: &mut Parts)
    requires { PipesUpTo (COUNT_LIMIT - PROCESSOR_LIMIT) parts.old.pipes }
    ensures { parts.new ≡ record parts.old { pipes = map (raise 0) parts.old.pipes } }
{
    for c in 0..parts.pipe_count() {
        parts.raise(c, 0);
    }
}

/// The clock ticks: line 0 is raised on every processor.
#[tactic(auto, unfolding(evm_model::specs::Commands::tick))]
pub(crate) fn tick(parts: &mut Parts)
    requires clock { parts.old.ticks < COUNT_LIMIT }
    requires room { PipesUpTo (COUNT_LIMIT - PROCESSOR_LIMIT) parts.old.pipes }
    ensures { parts.new ≡ tick parts.old }
{
    parts.ticks += 1;
    raise_timers(parts);
}

/// Sets a register of a processor's current task.
pub(crate) fn set_register(parts: &mut Parts, c: u8, r: u8, value: u64)
    requires { bad_register r ≡ false }
    ensures { parts.new ≡ on_current c (set_register r value) parts.old }
{
    let Some(register) = Register::new(r) else {
        return;
    };
    if let Some(t) = parts.current(c) {
        parts.harts.set_register(t, register, value);
    }
}

/// Sets the pc of a processor's current task.
pub(crate) fn set_pc(parts: &mut Parts, c: u8, pc: u64)
    ensures { parts.new ≡ on_current c (set_pc pc) parts.old }
{
    if let Some(t) = parts.current(c) {
        parts.harts.set_pc(t, pc);
    }
}
