//! Waits for a timer that are answered with more than one expiry.

ghost use Rattle.std.specs.Prelude.{◌≡◌, ℕ, ◌≤◌, true, MatchOption, Option, length, slice_get};
ghost use Rattle.evm_model.specs.declared.limits.TheConstants.{TASK_LIMIT};
ghost use Rattle.hunt_failures.specs.Eves.{is_listed};
ghost use Rattle.hunt_failures.specs.Failures.{awaits_timer, is_answered_late, is_behind, is_late, is_ready_task, is_timer_wait, tells_many};

use crate::calls::Caller;
use crate::failure::Failure;
use arrayvec::ArrayVec;
use evm_core::Machine;
use evm_devs::AnyDevice;
use evm_exec::Hart;
use evm_model::{Call, TASK_LIMIT, Task, TaskState, Wait};

/// Of each task whether it waits for a timer.
pub(crate) type TimerWaiters = ArrayVec<bool, TASK_LIMIT>;

/// The register of answers, a0.
const A0: usize = 10;

/// The least answer that is an error.
pub(crate) const FIRST_ERROR: u64 = 1 << 63;

fn awaits_timer(task: Option<Task>) -> bool
    ensures { result ≡ awaits_timer task }
{
    match task {
        None => false,
        Some(task) => match task.state {
            TaskState::Waits(Wait::Timer(_)) => true,
            _ => false,
        },
    }
}

fn is_ready(task: Option<Task>) -> bool
    ensures { result ≡ is_ready_task task }
{
    match task {
        None => false,
        Some(task) => match task.state {
            TaskState::InReady | TaskState::OobReady => true,
            _ => false,
        },
    }
}

// Whether a task has the answer that a timer has expired more than once.
fn tells_many(hart: Option<Hart>) -> bool
    ensures { result ≡ tells_many hart }
{
    match hart {
        None => false,
        Some(hart) => 1 < hart.regs[A0] && hart.regs[A0] < FIRST_ERROR,
    }
}

// Whether a task is behind an ECALL at this address.
fn is_behind(hart: Option<Hart>, pc: u64) -> bool
    ensures { result ≡ is_behind pc hart }
{
    let Some(hart) = hart else {
        return false;
    };
    match pc.checked_add(4) {
        Some(behind) => hart.pc == behind,
        None => false,
    }
}

/// Of each task whether it waits for a timer.
pub(crate) fn timer_waiters(machine: &Machine<AnyDevice>) -> TimerWaiters
    ensures { (t : ℕ) → is_listed (slice_get result.items t) ≡ awaits_timer (slice_get machine.now.board.parts.tasks t) }
{
    let mut waiters = ArrayVec::new();
    'tasks: for t in 0..machine.task_count() {
        waiters.push(awaits_timer(machine.task(t)));
    }
    waiters
}

// Whether a task is ready with more than one expiry.
fn is_late(machine: &Machine<AnyDevice>, t: u8) -> bool
    ensures { result ≡ is_late t machine.now }
{
    if !is_ready(machine.task(t)) {
        return false;
    }
    tells_many(machine.hart(t))
}

fn is_listed(waiters: &[bool], t: u8) -> bool
    ensures { result ≡ is_listed (slice_get waiters.now t) }
{
    match waiters.get(usize::from(t)) {
        Some(waited) => *waited,
        None => false,
    }
}

/// The failure of the first task that waited for a timer and was answered more than one expiry.
pub(crate) fn woken_late(machine: &Machine<AnyDevice>, waiters: &[bool]) -> Option<Failure>
    requires few { length waiters.now ≤ TASK_LIMIT }
    ensures { MatchOption result ((t : ℕ) → is_listed (slice_get waiters.now t) ≡ true → is_late t machine.now ≡ true → ⊥) (λ failure. (t : ℕ) × (failure ≡ Failure.Overrun t) × (is_listed (slice_get waiters.now t) ≡ true) × (is_late t machine.now ≡ true)) }
{
    'tasks: for t in 0..waiters.len() as u8 {
        if is_listed(waiters, t) && is_late(machine, t) {
            return Some(Failure::Overrun(t));
        }
    }
    None
}

// Whether a call is one that waits for a timer.
fn is_timer_wait(call: Option<Call>) -> bool
    ensures { result ≡ is_timer_wait call }
{
    match call {
        Some(Call::TimerWait) => true,
        _ => false,
    }
}

/// The failure of a task that was at a call, and was answered more than one expiry of a timer at once.
pub(crate) fn answered_late(machine: &Machine<AnyDevice>, caller: Caller) -> Option<Failure>
    ensures { MatchOption result (is_answered_late caller.pc caller.call (slice_get machine.now.board.parts.harts caller.task) ≡ true → ⊥) (λ failure. (failure ≡ Failure.Overrun caller.task) × (is_answered_late caller.pc caller.call (slice_get machine.now.board.parts.harts caller.task) ≡ true)) }
{
    if !is_timer_wait(caller.call) {
        return None;
    }
    let hart = machine.hart(caller.task);
    if is_behind(hart, caller.pc) && tells_many(hart) {
        Some(Failure::Overrun(caller.task))
    } else {
        None
    }
}
