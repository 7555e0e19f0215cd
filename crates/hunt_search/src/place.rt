//! Where a machine has failed.

use evm_model::{NoticeKind, TaskState};
use hunt_failures::{Failure, current, owner_of};
use hunt_schedules::{AnyDevice, Machine};

// The pc of a task; 0 where there is none.
fn pc_of(machine: &Machine<AnyDevice>, task: Option<u8>) -> u64 {
    let Some(t) = task else {
        return 0;
    };
    match machine.hart(t) {
        Some(hart) => hart.pc,
        None => 0,
    }
}

// The waiting task of least number.
fn first_waiting(machine: &Machine<AnyDevice>) -> Option<u8> {
    for t in 0..machine.task_count() {
        if let Some(task) = machine.task(t)
            && let TaskState::Waits(_) = task.state
        {
            return Some(t);
        }
    }
    None
}

// The pc of a task that waits is behind its ECALL.
fn stuck_at(machine: &Machine<AnyDevice>, t: u8) -> u64 {
    let pc = pc_of(machine, Some(t));
    match machine.task(t) {
        Some(task) => match task.state {
            TaskState::Waits(_) => pc.saturating_sub(4),
            _ => pc,
        },
        None => pc,
    }
}

/// The address of the instruction at which a machine has failed: the EBREAK, the instruction that faulted, the ECALL that was refused or
/// by which the waiting task of least number waits, the instruction that demoted a task, the ECALL or the
/// instruction that faulted by which a task has left a mutex, the ECALL that waited for a timer, or by which a task is stuck. Of a lost line
/// it is the next instruction of the processor, of a held mutex that of its owner, and of a task that is kept back or is ready its own.
pub(crate) fn failure_address(machine: &Machine<AnyDevice>, failure: Failure) -> u64 {
    match failure {
        Failure::Ebreak(c) => pc_of(machine, current(machine, c)).saturating_sub(4),
        Failure::Fault(t) => pc_of(machine, Some(t)),
        Failure::Deadlock => pc_of(machine, first_waiting(machine)).saturating_sub(4),
        Failure::Notice(
            t,
            NoticeKind::DemotedByCall | NoticeKind::DemotedByFault | NoticeKind::Overran,
        ) => pc_of(machine, Some(t)),
        Failure::Notice(t, _) | Failure::Refused(t, _) | Failure::Overrun(t) => {
            pc_of(machine, Some(t)).saturating_sub(4)
        }
        Failure::Abandoned(t, _) | Failure::Demoted(t) => pc_of(machine, Some(t)),
        Failure::Lost(c, _) => pc_of(machine, current(machine, c)),
        Failure::Held(m) => pc_of(machine, owner_of(machine, m)),
        Failure::KeptBack(t) => pc_of(machine, Some(t)),
        Failure::Stuck(t) => stuck_at(machine, t),
    }
}
