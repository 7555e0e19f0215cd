//! Tasks that go in-band.

ghost use Rattle.std.specs.Prelude.{◌≡◌, MatchOption, Option, ℕ, true, slice_get};
ghost use Rattle.evm_model.specs.Current.{current};
ghost use Rattle.evm_model.specs.declared.call.Call.{Call as CallOf};
ghost use Rattle.evm_model.specs.declared.task.Task.{Task as TaskOf};
ghost use Rattle.hunt_failures.specs.Failures.{call_in, goes_in_band, is_in_band_task, is_out_of_band, is_to_stay, is_weak_task, leaves};

use crate::calls::{call_in, is_ecall};
use crate::failure::{Failure, current};
use evm_core::Machine;
use evm_devs::AnyDevice;
use evm_model::{Call, Class, Task, TaskState};

// Whether a task goes in-band itself by a call.
fn goes_in_band(call: Option<Call>) -> bool
    ensures { result ≡ goes_in_band call }
{
    match call {
        Some(Call::Exit | Call::Detach | Call::SwitchInBand) => true,
        _ => false,
    }
}

fn is_weak(task: Option<Task>) -> bool
    ensures { result ≡ is_weak_task task }
{
    match task {
        None => false,
        Some(task) => match task.class {
            Class::Weak => true,
            _ => false,
        },
    }
}

fn is_out_of_band(task: Option<Task>) -> bool
    ensures { result ≡ is_out_of_band task }
{
    match task {
        None => false,
        Some(task) => match task.state {
            TaskState::OobReady => true,
            _ => false,
        },
    }
}

fn is_in_band(task: Option<Task>) -> bool
    ensures { result ≡ is_in_band_task task }
{
    match task {
        None => false,
        Some(task) => match task.state {
            TaskState::InReady => true,
            _ => false,
        },
    }
}

// Whether the next instruction of a task is a call by which it goes in-band itself.
fn leaves(machine: &Machine<AnyDevice>, t: u8) -> bool
    ensures { result ≡ leaves t machine.now }
{
    let Some(hart) = machine.hart(t) else {
        return false;
    };
    if !is_ecall(machine, hart.pc) {
        return false;
    }
    is_weak(machine.task(t)) || goes_in_band(call_in(machine, t))
}

/// The out-of-band task that a processor runs, unless its next instruction is a call by which it goes in-band itself.
pub(crate) fn staying_on(machine: &Machine<AnyDevice>, cpu: u8) -> Option<u8>
    ensures { MatchOption result ((t : ℕ) → current cpu machine.now.board.parts ≡ Option.Some t → is_to_stay t machine.now ≡ true → ⊥) (λ t. (current cpu machine.now.board.parts ≡ Option.Some t) × (is_to_stay t machine.now ≡ true)) }
{
    let Some(t) = current(machine, cpu) else {
        return None;
    };
    if !is_out_of_band(machine.task(t)) {
        return None;
    }
    if leaves(machine, t) { None } else { Some(t) }
}

/// The failure of a task that was to stay out-of-band.
pub(crate) fn demoted(machine: &Machine<AnyDevice>, task: u8) -> Option<Failure>
    ensures { MatchOption result (is_in_band_task (slice_get machine.now.board.parts.tasks task) ≡ true → ⊥) (λ failure. (failure ≡ Failure.Demoted task) × (is_in_band_task (slice_get machine.now.board.parts.tasks task) ≡ true)) }
{
    if is_in_band(machine.task(task)) {
        Some(Failure::Demoted(task))
    } else {
        None
    }
}
