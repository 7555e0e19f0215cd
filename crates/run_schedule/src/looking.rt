//! What a machine has come to.

ghost use Rattle.std.specs.Prelude.{◌≡◌, ℕ, ◌<◌, true, false, IsTrue, Option, length, slice_get};
ghost use Rattle.evm_core.specs.Views.{device_word};
ghost use Rattle.evm_model.specs.Current.{is_oob};
ghost use Rattle.hunt_failures.specs.Failures.{ended_at, faulted_at, is_off, is_quiet_pipe, is_waiting_task, is_zero, stopped_at};
ghost use Rattle.hunt_failures.specs.Awake.{IsAwake};
ghost use Rattle.run_schedule.specs.Endings.{AllExited, IsDeadlocked, has_exited, is_resting, is_untimed};

use evm_core::Machine;
use evm_devs::AnyDevice;
use evm_model::{Task, TaskState};
use hunt_failures::awake_processors;

/// Whether a processor is stopped.
pub(crate) fn is_stopped(machine: &Machine<AnyDevice>, c: u8) -> bool
    ensures { result ≡ stopped_at c machine.now }
{
    match machine.cpu(c) {
        None => false,
        Some(processor) => processor.stopped,
    }
}

/// Whether a task ended by a fault.
pub(crate) fn is_faulted(machine: &Machine<AnyDevice>, t: u8) -> bool
    ensures { result ≡ faulted_at t machine.now }
{
    match machine.task(t) {
        None => false,
        Some(task) => match task.state {
            TaskState::Faulted(_) => true,
            _ => false,
        },
    }
}

/// Whether a task has ended.
pub(crate) fn has_ended(machine: &Machine<AnyDevice>, t: u8) -> bool
    ensures { result ≡ ended_at t machine.now }
{
    match machine.task(t) {
        None => false,
        Some(task) => match task.state {
            TaskState::Exit | TaskState::Faulted(_) => true,
            _ => false,
        },
    }
}

/// Whether a task is ready out-of-band.
pub(crate) fn is_oob(machine: &Machine<AnyDevice>, t: u8) -> bool
    ensures { result ≡ is_oob (Option.Some t) machine.now.board.parts.tasks }
{
    match machine.task(t) {
        None => false,
        Some(task) => match task.state {
            TaskState::OobReady => true,
            _ => false,
        },
    }
}

// Whether there is no such task, or it has ended by exit.
fn has_exited(task: Option<Task>) -> bool
    ensures { result ≡ has_exited task }
{
    match task {
        None => true,
        Some(task) => match task.state {
            TaskState::Exit => true,
            _ => false,
        },
    }
}

/// Whether all tasks have ended by exit.
pub fn all_exited(machine: &Machine<AnyDevice>) -> bool
    ensures all { IsTrue result → AllExited machine.now }
    ensures one { result ≡ false → AllExited machine.now → ⊥ }
{
    'tasks: for t in 0..machine.task_count() {
        if !has_exited(machine.task(t)) {
            return false;
        }
    }
    true
}

// Whether a processor isn't stopped, runs no task, and has no line on its wire.
fn is_resting(machine: &Machine<AnyDevice>, c: u8) -> bool
    ensures { result ≡ is_resting (slice_get machine.now.board.parts.processors c) (slice_get machine.now.board.parts.pipes c) }
{
    if let Some(processor) = machine.cpu(c) {
        if processor.stopped {
            return false;
        }
        if processor.current.is_some() {
            return false;
        }
    }
    match machine.wire(c) {
        None => true,
        Some(wire) => wire.is_empty(),
    }
}

// Whether this holds of all processors.
fn are_resting(machine: &Machine<AnyDevice>) -> bool
    ensures { IsTrue result → (c : ℕ) → c < length machine.now.board.parts.processors → is_resting (slice_get machine.now.board.parts.processors c) (slice_get machine.now.board.parts.pipes c) ≡ true }
{
    'cpus: for c in 0..machine.cpu_count() {
        if !is_resting(machine, c) {
            return false;
        }
    }
    true
}

// Whether there is no such task, or it has ended, or it waits without a deadline.
fn is_untimed(task: Option<Task>) -> bool
    ensures { result ≡ is_untimed task }
{
    let Some(task) = task else {
        return true;
    };
    match task.state {
        TaskState::Exit | TaskState::Faulted(_) => true,
        TaskState::Waits(_) => task.deadline == 0,
        TaskState::InReady | TaskState::OobReady => false,
    }
}

// Whether this holds of all tasks.
fn are_untimed(machine: &Machine<AnyDevice>) -> bool
    ensures { IsTrue result → (t : ℕ) → t < length machine.now.board.parts.tasks → is_untimed (slice_get machine.now.board.parts.tasks t) ≡ true }
{
    'tasks: for t in 0..machine.task_count() {
        if !is_untimed(machine.task(t)) {
            return false;
        }
    }
    true
}

// Whether a timer is off.
fn is_off(machine: &Machine<AnyDevice>, n: u8) -> bool
    ensures { result ≡ is_off (slice_get machine.now.board.parts.timers n) }
{
    match machine.timer(n) {
        None => true,
        Some(timer) => timer.due == 0,
    }
}

// Whether all timers are off.
fn are_off(machine: &Machine<AnyDevice>) -> bool
    ensures { IsTrue result → (n : ℕ) → n < length machine.now.board.parts.timers → is_off (slice_get machine.now.board.parts.timers n) ≡ true }
{
    'timers: for n in 0..machine.timer_count() {
        if !is_off(machine, n) {
            return false;
        }
    }
    true
}

fn is_waiting(task: Option<Task>) -> bool
    ensures { result ≡ is_waiting_task task }
{
    match task {
        None => false,
        Some(task) => match task.state {
            TaskState::Waits(_) => true,
            _ => false,
        },
    }
}

// Whether a task waits.
fn one_waits(machine: &Machine<AnyDevice>) -> bool
    ensures { IsTrue result → (t : ℕ) × (is_waiting_task (slice_get machine.now.board.parts.tasks t) ≡ true) }
{
    'tasks: for t in 0..machine.task_count() {
        if is_waiting(machine.task(t)) {
            return true;
        }
    }
    false
}

// Whether the pins count no ticks.
fn pins_are_still(machine: &Machine<AnyDevice>) -> bool
    ensures { result ≡ is_zero (device_word 2 2 machine.now.board.memory.devices) }
{
    match machine.device_word(2, 2) {
        None => true,
        Some(count) => count == 0,
    }
}

/// Whether a task waits, none can run, and no deadline and no timer is to come.
pub fn is_deadlocked(machine: &Machine<AnyDevice>) -> bool
    ensures { IsTrue result → IsDeadlocked machine.now }
{
    if !are_resting(machine) {
        return false;
    }
    if !are_untimed(machine) {
        return false;
    }
    if !are_off(machine) {
        return false;
    }
    if !one_waits(machine) {
        return false;
    }
    pins_are_still(machine)
}

/// Whether no step of a processor would do anything.
pub(crate) fn is_asleep(machine: &Machine<AnyDevice>) -> bool
    ensures { IsTrue result → (c : ℕ) → IsAwake c machine.now → ⊥ }
{
    let awake = awake_processors(machine);
    awake.is_empty()
}
