//! Whether a machine has no breakpoint, and no processor is to pass one.

ghost use Rattle.std.specs.Prelude.{◌≡◌, ℕ, true, false, slice_get};
ghost use Rattle.hunt_space.specs.Space.{IsUndebugged};
ghost use Rattle.law_runs.specs.Ahead.{skips};

use hunt_schedules::{AnyDevice, Machine};

// Whether a processor is to pass a breakpoint.
fn skips(machine: &Machine<AnyDevice>, cpu: u8) -> bool
    ensures { result ≡ skips (slice_get machine.now.board.parts.processors cpu) }
{
    match machine.cpu(cpu) {
        None => false,
        Some(processor) => processor.skip,
    }
}

// Whether no processor is.
fn none_skips(machine: &Machine<AnyDevice>) -> bool
    ensures { result ≡ true → (c : ℕ) → skips (slice_get machine.now.board.parts.processors c) ≡ false }
{
    'cpus: for cpu in 0..machine.cpu_count() {
        if skips(machine, cpu) {
            return false;
        }
    }
    true
}

/// Whether no breakpoint is set, and no processor is to pass one.
pub(crate) fn is_undebugged(machine: &Machine<AnyDevice>) -> bool
    ensures { result ≡ true → IsUndebugged machine.now }
{
    if machine.breakpoint_count() != 0 {
        return false;
    }
    none_skips(machine)
}
