//! The lines that a program asks for.

use evm_lines::{LINES, LineSet};
use evm_model::{Action, TaskState, Wait};
use hunt_schedules::{AnyDevice, Machine};

/// Adds to a set the lines that a task of a machine waits for or that have an action, without those of the clock and of rescheduling.
pub(crate) fn add_asked(machine: &Machine<AnyDevice>, asked: &mut LineSet) {
    for line in 2..LINES {
        if machine.action(line) != Action::Nothing {
            asked.insert(line);
        }
    }
    for t in 0..machine.task_count() {
        if let Some(task) = machine.task(t)
            && let TaskState::Waits(Wait::Line(line)) = task.state
            && 1 < line
            && line < LINES
        {
            asked.insert(line);
        }
    }
}
