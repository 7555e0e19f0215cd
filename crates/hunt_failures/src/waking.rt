//! Which processors can step.

ghost use Rattle.std.specs.Prelude.{◌≡◌, ℕ, ◌<◌, ◌≤◌, ◌+◌, true, false, Option, IsTrue, length, slice_get, IfSome};
ghost use Rattle.arrayvec.specs.ArrayVec.{array_vec_len};
ghost use Rattle.hunt_failures.specs.Failures.{is_quiet_pipe};
ghost use Rattle.hunt_failures.specs.Awake.{IsAwake, IsOver, is_done, is_ready_on};
ghost use Rattle.evm_model.specs.declared.limits.TheConstants.{PROCESSOR_LIMIT as PROCESSORS};
ghost use Rattle.evm_model.specs.State.{State};

use crate::looks::{is_stopped, is_stuck_task, pins_are_still};
use arrayvec::ArrayVec;
use evm_core::Machine;
use evm_devs::AnyDevice;
use evm_lines::LineSet;
use evm_model::{PROCESSOR_LIMIT, Task, TaskState};

/// The processors that can do something, in rising order.
pub type Awake = ArrayVec<u8, PROCESSOR_LIMIT>;

// Whether a task is one of a processor's, and ready.
fn is_ready_on(task: Option<Task>, c: u8) -> bool
    ensures { result ≡ is_ready_on c task }
{
    let Some(task) = task else {
        return false;
    };
    if task.cpu != c {
        return false;
    }
    match task.state {
        TaskState::InReady | TaskState::OobReady => true,
        _ => false,
    }
}

// Whether a task is ready on a processor, which takes it up with its next step.
fn has_ready(machine: &Machine<AnyDevice>, c: u8) -> bool
    ensures none { result ≡ false → (t : ℕ) → is_ready_on c (slice_get machine.now.board.parts.tasks t) ≡ false }
{
    'tasks: for t in 0..machine.task_count() {
        if is_ready_on(machine.task(t), c) {
            return true;
        }
    }
    false
}

fn has_line(machine: &Machine<AnyDevice>, c: u8) -> bool
    ensures none { result ≡ false → is_quiet_pipe (slice_get machine.now.board.parts.pipes c) ≡ true }
{
    match machine.wire(c) {
        None => false,
        Some(wire) => !wire.is_empty(),
    }
}

// Whether a step of a processor does more than idle.
fn is_awake(machine: &Machine<AnyDevice>, c: u8) -> bool
    ensures none { result ≡ false → IsAwake c machine.now → ⊥ }
{
    let Some(processor) = machine.cpu(c) else {
        return false;
    };
    if processor.stopped {
        return false;
    }
    if processor.current.is_some() {
        return true;
    }
    if has_line(machine, c) {
        return true;
    }
    has_ready(machine, c)
}

// Adds a processor, if it is awake.
fn add_awake(machine: &Machine<AnyDevice>, c: u8, awake: &mut Awake)
    requires few { array_vec_len awake.old ≤ c }
    requires cpu { c < PROCESSORS }
    ensures len { array_vec_len awake.new ≤ c + 1 }
    ensures keeps { (i d : ℕ) → slice_get awake.old.items i ≡ Option.Some d → slice_get awake.new.items i ≡ Option.Some d }
    ensures adds { IsAwake c machine.now → (i : ℕ) × (slice_get awake.new.items i ≡ Option.Some c) }
{
    if is_awake(machine, c) {
        awake.push(c);
    }
}

/// The processors whose next step does something: they aren't stopped, and have a task or a line.
pub fn awake_processors(machine: &Machine<AnyDevice>) -> Awake
    ensures { (c : ℕ) → IsAwake c machine.now → (i : ℕ) × (slice_get result.items i ≡ Option.Some c) }
{
    let mut awake = ArrayVec::new();
    'cpus: for c in 0..machine.cpu_count() {
        add_awake(machine, c, &mut awake);
    }
    awake
}

// Whether a task can't run any more on a machine of which no processor is awake: one that is ready is of a processor that is stopped.
fn is_done(machine: &Machine<AnyDevice>, lines: LineSet, task: Option<Task>) -> bool
    ensures { result ≡ is_done lines machine.now task }
{
    let Some(known) = task else {
        return true;
    };
    match known.state {
        TaskState::InReady | TaskState::OobReady => return true,
        _ => {}
    }
    if is_stuck_task(machine, lines, task) {
        return true;
    }
    is_stopped(machine, known.cpu)
}

/// Whether nothing more can happen on a machine of which no processor is awake: each task has ended, waits for another or is of a
/// processor that is stopped.
pub fn is_over(machine: &Machine<AnyDevice>, lines: LineSet) -> bool
    ensures { IsTrue result → ((c : ℕ) → IsAwake c machine.now → ⊥) → IsOver lines machine.now }
{
    'tasks: for t in 0..machine.task_count() {
        if !is_done(machine, lines, machine.task(t)) {
            return false;
        }
    }
    pins_are_still(machine)
}
