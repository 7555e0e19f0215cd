//! Lines that nobody waits for.

ghost use Rattle.std.specs.Prelude.{◌≡◌, ℕ, ◌<◌, false, IfSome, List, length, slice_get};
ghost use Rattle.evm_core.specs.Views.{counts_at};
ghost use Rattle.evm_model.specs.Event.{Event};
ghost use Rattle.evm_model.specs.State.{State};
ghost use Rattle.evm_model.specs.declared.event.Answer.{Answer};
ghost use Rattle.evm_model.specs.Waits.{awaits_line};
ghost use Rattle.hunt_failures.specs.Failures.{Fails, IsUnawaited, plays};

use crate::failure::Failure;
use evm_core::Machine;
use evm_devs::AnyDevice;
use evm_lines::{LINES, LineSet};
use evm_model::{Stage, Task, TaskState, Wait};

/// A line that no task of a processor waits for, and how often it was played there in-band.
#[derive(Clone, Copy, Debug)]
pub(crate) struct Unawaited {
    pub(crate) cpu: u8,
    pub(crate) line: u8,
    pub(crate) played: u64,
}

// How often a line was played in-band on a processor.
fn plays(machine: &Machine<AnyDevice>, c: u8, line: u8) -> u64
    ensures { result ≡ plays (counts_at c line machine.now.board.parts) }
{
    match machine.counts(c, line) {
        None => 0,
        Some(counts) => counts.in_band.played,
    }
}

// Whether a task waits on a processor for a line.
fn awaits_line(task: Option<Task>, c: u8, line: u8) -> bool
    ensures { result ≡ awaits_line c line task }
{
    let Some(task) = task else {
        return false;
    };
    match task.state {
        TaskState::Waits(Wait::Line(awaited)) => awaited == line && task.cpu == c,
        _ => false,
    }
}

// Whether a task waits on a processor for a line.
fn is_awaited(machine: &Machine<AnyDevice>, c: u8, line: u8) -> bool
    ensures { result ≡ false → (t : ℕ) → t < length machine.now.board.parts.tasks → awaits_line c line (slice_get machine.now.board.parts.tasks t) ≡ false }
{
    for t in 0..machine.task_count() {
        if awaits_line(machine.task(t), c, line) {
            return true;
        }
    }
    false
}

// Whether a line is on the wire or in the in-band log of a processor.
fn is_pending(machine: &Machine<AnyDevice>, c: u8, line: u8) -> bool {
    let Some(stages) = machine.stages(c) else {
        return false;
    };
    stages.wire.contains(line) || stages.in_band.lines.contains(line)
}

// Of the lines that are pending on a processor one for which no task waits there, and how often it was played.
fn unawaited_at(machine: &Machine<AnyDevice>, c: u8, line: u8) -> Option<Unawaited>
    ensures { IfSome result (λ line. IsUnawaited line.cpu line.line line.played machine.now) }
{
    if !is_pending(machine, c, line) {
        return None;
    }
    if is_awaited(machine, c, line) {
        return None;
    }
    let played = plays(machine, c, line);
    Some(Unawaited {
        cpu: c,
        line,
        played,
    })
}

/// The least of some lines that is pending on a processor where no task waits for it.
pub(crate) fn first_unawaited(
    machine: &Machine<AnyDevice>,
    cpu: u8,
    lines: LineSet,
) -> Option<Unawaited>
    ensures { IfSome result (λ line. IsUnawaited line.cpu line.line line.played machine.now) }
{
    for line in 0..LINES {
        if lines.contains(line)
            && let Some(found) = unawaited_at(machine, cpu, line)
        {
            return Some(found);
        }
    }
    None
}

/// The failure of a line that was played though no task waited for it.
pub(crate) fn lost(machine: &Machine<AnyDevice>, line: Unawaited) -> Option<Failure>
    ensures { (lines : List ℕ) (before : State) (event : Event) (answer : Answer) → IsUnawaited line.cpu line.line line.played before → IfSome result (λ failure. Fails lines failure before event answer machine.now) }
{
    if plays(machine, line.cpu, line.line) > line.played {
        Some(Failure::Lost(line.cpu, line.line))
    } else {
        None
    }
}
