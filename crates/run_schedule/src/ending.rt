//! How a run has ended.

ghost use Rattle.std.specs.Prelude.{IfSome};
ghost use Rattle.run_schedule.specs.Endings.{HasEndedSo, IsEnded};

use crate::looking::{all_exited, has_ended, is_asleep, is_deadlocked, is_faulted, is_stopped};
use evm_core::{Answer, Machine};
use evm_devs::AnyDevice;
use evm_model::{Block, Event, Refusal};

/// How a run has ended.
#[derive(Clone, Copy, Debug, PartialEq, Eq)]
pub enum RunEnd {
    /// All tasks have ended by exit.
    AllEnded,
    /// This processor stopped at EBREAK.
    Break(u8),
    /// This task ended by a fault.
    Fault(u8),
    /// A task waits, none can run, and no deadline, timer or line is to come.
    Deadlock,
    /// No processor has anything to do now.
    Idle,
    /// The script is over.
    Over,
    /// The machine takes no event more, for this reason: its journal is full.
    Refused(Refusal),
}

/// How a run has ended by a step of a processor with this answer, if it has.
fn ending_by_step(machine: &Machine<AnyDevice>, c: u8, answer: Answer) -> Option<RunEnd>
    ensures { IfSome result (λ ending. HasEndedSo ending machine.now) }
{
    let Answer::Ran(t) = answer else {
        return None;
    };
    if is_stopped(machine, c) {
        return Some(RunEnd::Break(c));
    }
    if is_faulted(machine, t) {
        return Some(RunEnd::Fault(t));
    }
    if !has_ended(machine, t) {
        return None;
    }
    if all_exited(machine) {
        Some(RunEnd::AllEnded)
    } else {
        None
    }
}

/// How a run has ended by its last event, if it has.
pub(crate) fn ending_of(
    machine: &Machine<AnyDevice>,
    event: Event<&Block>,
    answer: Answer,
) -> Option<RunEnd>
    ensures { IfSome result (λ ending. HasEndedSo ending machine.now) }
{
    match event {
        Event::Step(c) => ending_by_step(machine, c, answer),
        _ => None,
    }
}

/// The ending of a run, which is `AllEnded` wherever all tasks have ended by exit.
pub(crate) fn concluded(machine: &Machine<AnyDevice>, ending: RunEnd) -> RunEnd
    requires { HasEndedSo ending machine.now }
    ensures { IsEnded result machine.now }
{
    if all_exited(machine) {
        RunEnd::AllEnded
    } else {
        ending
    }
}

// The first processor that is stopped.
fn stopped_processor(machine: &Machine<AnyDevice>) -> Option<RunEnd>
    ensures { IfSome result (λ ending. HasEndedSo ending machine.now) }
{
    for c in 0..machine.cpu_count() {
        if is_stopped(machine, c) {
            return Some(RunEnd::Break(c));
        }
    }
    None
}

// The first task that ended by a fault.
fn faulted_task(machine: &Machine<AnyDevice>) -> Option<RunEnd>
    ensures { IfSome result (λ ending. HasEndedSo ending machine.now) }
{
    for t in 0..machine.task_count() {
        let ending = RunEnd::Fault(t);
        if is_faulted(machine, t) {
            return Some(ending);
        }
    }
    None
}

/// How a run has ended whose script is over.
pub(crate) fn ending_over(machine: &Machine<AnyDevice>) -> RunEnd
    ensures { HasEndedSo result machine.now }
{
    if let Some(ending) = stopped_processor(machine) {
        return ending;
    }
    if let Some(ending) = faulted_task(machine) {
        return ending;
    }
    if is_deadlocked(machine) {
        return RunEnd::Deadlock;
    }
    if is_asleep(machine) {
        return RunEnd::Idle;
    }
    RunEnd::Over
}
