//! Whether a machine has failed.

ghost use Rattle.std.specs.Prelude.{◌≡◌, ℕ, ◌<◌, true, false, IsTrue, MatchOption, Option, length, slice_get};
ghost use Rattle.evm_core.specs.Views.{device_word};
ghost use Rattle.evm_model.specs.State.{State};
ghost use Rattle.evm_model.specs.declared.notice.NoticeKind.{NoticeKind};
ghost use Rattle.hunt_failures.specs.Failures.{IsDeadlock, IsNoticed, faulted_at, has_kind, is_off, is_quiet_pipe, is_stuck, is_stuck_task, is_waiting_task, is_zero, only_tasks_end, stopped_at};

use crate::failure::Failure;
use crate::wanted::Wanted;
use evm_core::{Answer, Machine};
use evm_devs::AnyDevice;
use evm_lines::LineSet;
use evm_model::{Task, TaskState, Wait};

/// Whether a processor is stopped.
pub(crate) fn is_stopped(machine: &Machine<AnyDevice>, cpu: u8) -> bool
    ensures { result ≡ stopped_at cpu machine.now }
{
    match machine.cpu(cpu) {
        None => false,
        Some(processor) => processor.stopped,
    }
}

// Whether a task ended by a fault.
fn is_faulted(machine: &Machine<AnyDevice>, t: u8) -> bool
    ensures { result ≡ faulted_at t machine.now }
{
    match machine.task(t) {
        None => false,
        Some(task) => match task.state {
            TaskState::Faulted(_) => true,
            _ => false,
        },
    }
}

// Whether a timer is off.
fn is_off(machine: &Machine<AnyDevice>, n: u8) -> bool
    ensures { result ≡ is_off (slice_get machine.now.board.parts.timers n) }
{
    match machine.timer(n) {
        None => true,
        Some(timer) => timer.due == 0,
    }
}

// Whether nothing but another task ends a wait.
fn only_tasks_end(machine: &Machine<AnyDevice>, lines: LineSet, wait: Wait) -> bool
    ensures { result ≡ only_tasks_end lines machine.now.board.parts.timers wait }
{
    match wait {
        Wait::Lock(_) | Wait::Reacquire { .. } | Wait::Event(_) => true,
        Wait::Semaphore(_) | Wait::Flags(_) => lines.is_empty(),
        Wait::Line(line) => line != 0 && !lines.contains(line),
        Wait::Sleep => false,
        Wait::Timer(n) => is_off(machine, n),
    }
}

// Whether a task has ended, or waits without a deadline for another.
fn is_stuck(machine: &Machine<AnyDevice>, lines: LineSet, task: &Task) -> bool
    ensures { result ≡ is_stuck lines machine.now.board.parts.timers task.now }
{
    if task.deadline != 0 {
        return false;
    }
    match task.state {
        TaskState::Exit | TaskState::Faulted(_) => true,
        TaskState::Waits(wait) => only_tasks_end(machine, lines, wait),
        TaskState::InReady | TaskState::OobReady => false,
    }
}

/// Whether there is no task, or it has ended, or waits without a deadline for another.
pub(crate) fn is_stuck_task(
    machine: &Machine<AnyDevice>,
    lines: LineSet,
    task: Option<Task>,
) -> bool
    ensures { result ≡ is_stuck_task lines machine.now.board.parts.timers task }
{
    match task {
        None => true,
        Some(task) => is_stuck(machine, lines, &task),
    }
}

// Whether each task has ended, or waits without a deadline for another.
fn are_stuck(machine: &Machine<AnyDevice>, lines: LineSet) -> bool
    ensures all { IsTrue result → (t : ℕ) → t < length machine.now.board.parts.tasks → is_stuck_task lines machine.now.board.parts.timers (slice_get machine.now.board.parts.tasks t) ≡ true }
    ensures one { result ≡ false → ((t : ℕ) → t < length machine.now.board.parts.tasks → is_stuck_task lines machine.now.board.parts.timers (slice_get machine.now.board.parts.tasks t) ≡ true) → ⊥ }
{
    'tasks: for t in 0..machine.task_count() {
        if !is_stuck_task(machine, lines, machine.task(t)) {
            return false;
        }
    }
    true
}

fn is_waiting(task: Option<Task>) -> bool
    ensures { result ≡ is_waiting_task task }
{
    match task {
        None => false,
        Some(task) => match task.state {
            TaskState::Waits(_) => true,
            _ => false,
        },
    }
}

// Whether a task waits.
fn one_waits(machine: &Machine<AnyDevice>) -> bool
    ensures one { IsTrue result → (t : ℕ) × (is_waiting_task (slice_get machine.now.board.parts.tasks t) ≡ true) }
    ensures none { result ≡ false → (t : ℕ) → is_waiting_task (slice_get machine.now.board.parts.tasks t) ≡ false }
{
    'tasks: for t in 0..machine.task_count() {
        if is_waiting(machine.task(t)) {
            return true;
        }
    }
    false
}

// Whether no line is on the wire of a processor.
fn is_quiet(machine: &Machine<AnyDevice>, c: u8) -> bool
    ensures { result ≡ is_quiet_pipe (slice_get machine.now.board.parts.pipes c) }
{
    match machine.wire(c) {
        None => true,
        Some(wire) => wire.is_empty(),
    }
}

// Whether no line is on any wire.
fn are_quiet(machine: &Machine<AnyDevice>) -> bool
    ensures all { IsTrue result → (c : ℕ) → c < length machine.now.board.parts.processors → is_quiet_pipe (slice_get machine.now.board.parts.pipes c) ≡ true }
    ensures one { result ≡ false → ((c : ℕ) → c < length machine.now.board.parts.processors → is_quiet_pipe (slice_get machine.now.board.parts.pipes c) ≡ true) → ⊥ }
{
    'cpus: for c in 0..machine.cpu_count() {
        if !is_quiet(machine, c) {
            return false;
        }
    }
    true
}

/// Whether the pins count no ticks.
pub(crate) fn pins_are_still(machine: &Machine<AnyDevice>) -> bool
    ensures { result ≡ is_zero (device_word 2 2 machine.now.board.memory.devices) }
{
    match machine.device_word(2, 2) {
        None => true,
        Some(count) => count == 0,
    }
}

/// Whether a task waits and none can run again, where these lines may be raised from outside.
pub fn is_deadlock(machine: &Machine<AnyDevice>, lines: LineSet) -> bool
    ensures dead { IsTrue result → IsDeadlock lines machine.now }
    ensures alive { result ≡ false → IsDeadlock lines machine.now → ⊥ }
{
    if !are_stuck(machine, lines) {
        return false;
    }
    if !one_waits(machine) {
        return false;
    }
    if !are_quiet(machine) {
        return false;
    }
    pins_are_still(machine)
}

/// The task and the kind of the last notice, if there are more of them than `noticed`, and it is one that is looked for.
pub(crate) fn notice_left(
    machine: &Machine<AnyDevice>,
    noticed: u64,
    wanted: &Wanted,
) -> Option<Failure>
    ensures { (before : State) → noticed ≡ before.board.parts.notices.total → MatchOption result ((t : ℕ) (kind : NoticeKind) → has_kind wanted.now kind ≡ true → IsNoticed t kind before machine.now → ⊥) (λ failure. (t : ℕ) × (kind : NoticeKind) × (failure ≡ Failure.Notice t kind) × IsNoticed t kind before machine.now) }
{
    if machine.notice_total() == noticed {
        return None;
    }
    let count = machine.notice_count();
    let Some(notice) = machine.notice(count.saturating_sub(1)) else {
        return None;
    };
    if wanted.notices(notice.kind) {
        Some(Failure::Notice(notice.task, notice.kind))
    } else {
        None
    }
}

/// The failure of a processor that stopped.
pub(crate) fn stopped(machine: &Machine<AnyDevice>, cpu: u8, wanted: &Wanted) -> Option<Failure>
    ensures { MatchOption result (wanted.now.ebreak ≡ true → stopped_at cpu machine.now ≡ true → ⊥) (λ failure. (failure ≡ Failure.Ebreak cpu) × (stopped_at cpu machine.now ≡ true)) }
{
    if !wanted.ebreak {
        return None;
    }
    if is_stopped(machine, cpu) {
        Some(Failure::Ebreak(cpu))
    } else {
        None
    }
}

/// The failure of a task that did an instruction.
pub(crate) fn ran(machine: &Machine<AnyDevice>, answer: Answer, wanted: &Wanted) -> Option<Failure>
    ensures { MatchOption result (wanted.now.fault ≡ true → (t : ℕ) → answer ≡ Answer.Ran t → faulted_at t machine.now ≡ true → ⊥) (λ failure. (t : ℕ) × (failure ≡ Failure.Fault t) × (answer ≡ Answer.Ran t) × (faulted_at t machine.now ≡ true)) }
{
    if !wanted.fault {
        return None;
    }
    let Answer::Ran(t) = answer else {
        return None;
    };
    if is_faulted(machine, t) {
        Some(Failure::Fault(t))
    } else {
        None
    }
}

/// The failure of tasks that wait for one another.
pub(crate) fn deadlocked(machine: &Machine<AnyDevice>, wanted: &Wanted) -> Option<Failure>
    ensures { MatchOption result (wanted.now.deadlock ≡ true → IsDeadlock wanted.now.lines machine.now → ⊥) (λ failure. (failure ≡ Failure.Deadlock) × IsDeadlock wanted.now.lines machine.now) }
{
    if !wanted.deadlock {
        return None;
    }
    if is_deadlock(machine, wanted.lines) {
        Some(Failure::Deadlock)
    } else {
        None
    }
}
