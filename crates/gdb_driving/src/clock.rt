//! Whether something comes of ticks alone.

use evm_debug::Machine;
use evm_dev::Device;
use evm_model::TaskState;

// Whether a task waits until some tick.
fn has_deadline<D: Device>(machine: &Machine<D>) -> bool {
    for t in 0..machine.task_count() {
        if let Some(task) = machine.task(t) {
            if task.deadline != 0 && matches!(task.state, TaskState::Waits(_)) {
                return true;
            }
        }
    }
    false
}

// Whether a timer expires at some tick.
fn has_timer<D: Device>(machine: &Machine<D>) -> bool {
    for n in 0..machine.timer_count() {
        if let Some(timer) = machine.timer(n) {
            if timer.due != 0 {
                return true;
            }
        }
    }
    false
}

/// The device whose last word counts ticks until it raises its line, and that word.
const PINS: u8 = 2;

const PINS_COUNT: usize = 2;

// Whether the pins count ticks.
fn has_count<D: Device>(machine: &Machine<D>) -> bool {
    match machine.device_word(PINS, PINS_COUNT) {
        Some(count) => count != 0,
        None => false,
    }
}

/// Whether a deadline, a timer or the pins' count comes with some tick.
pub(crate) fn is_pending<D: Device>(machine: &Machine<D>) -> bool {
    has_deadline(machine) || has_timer(machine) || has_count(machine)
}
