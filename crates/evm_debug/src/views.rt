ghost use Rattle.std.specs.Prelude.{Option, slice_get};
ghost use Rattle.evm_journal.specs.evm_text.Appending.{Appends};
ghost use Rattle.evm_debug.specs.Views.{current_text, regs_text, task_text, tasks_text, owner_text, owners_text, rank_text, stages_text, counts_text};

use crate::piece::{Piece, push_pieces};
use crate::registers::push_registers;
use evm_dev::Device;
use evm_exec::Hart;
use evm_journal::{Machine, Stages};
use evm_model::{Counts, Mutex, Processor, Task};
use evm_room::{Refused, push_text};

#[tactic(auto, using(crate::proofs::Below::lengths))]
fn push_current(out: &mut String, t: u8, task: &Task, hart: &Hart) -> Result<(), Refused>
    ensures { Appends (current_text t (Option.Some task.now) (Option.Some hart.now)) out.old out.new result }
{
    let line = [
        Piece::Text("task "),
        Piece::Decimal(u64::from(t)),
        Piece::Text(" "),
        Piece::Stage(task.state),
        Piece::Text(" pc "),
        Piece::Word(hart.pc),
        Piece::Text("\n"),
    ];
    push_pieces(out, &line)?;
    push_registers(out, hart)
}

pub(crate) fn push_regs<D: Device>(
    out: &mut String,
    current: Option<u8>,
    machine: &Machine<D>,
) -> Result<(), Refused>
    ensures { Appends (regs_text current machine.now.board.parts) out.old out.new result }
{
    let Some(t) = current else {
        return push_text(out, "none\n");
    };
    let Some(task) = machine.task(t) else {
        return push_text(out, "none\n");
    };
    match machine.hart(t) {
        None => push_text(out, "none\n"),
        Some(hart) => push_current(out, t, &task, &hart),
    }
}

#[tactic(auto, using(crate::proofs::Below::tasks))]
pub(crate) fn push_tasks<D: Device>(out: &mut String, machine: &Machine<D>) -> Result<(), Refused>
    ensures { Appends (tasks_text machine.now.board.parts) out.old out.new result }
{
    for t in 0..machine.task_count() {
        push_numbered_task(out, t, machine)?;
    }
    Ok(())
}

// The task of a number, if there is one.
fn push_numbered_task<D: Device>(
    out: &mut String,
    t: u8,
    machine: &Machine<D>,
) -> Result<(), Refused>
    ensures { Appends (task_text t (slice_get machine.now.board.parts.tasks t) (slice_get machine.now.board.parts.harts t)) out.old out.new result }
{
    let Some(task) = machine.task(t) else {
        return Ok(());
    };
    match machine.hart(t) {
        None => Ok(()),
        Some(hart) => push_task(out, t, &task, &hart),
    }
}

fn push_task(out: &mut String, t: u8, task: &Task, hart: &Hart) -> Result<(), Refused>
    ensures { Appends (task_text t (Option.Some task.now) (Option.Some hart.now)) out.old out.new result }
{
    let line = [
        Piece::Decimal(u64::from(t)),
        Piece::Text(" cpu "),
        Piece::Decimal(u64::from(task.cpu)),
        Piece::Text(" "),
        Piece::Class(task.class),
        Piece::Text(" "),
        Piece::Decimal(u64::from(task.priority)),
        Piece::Text(" "),
        Piece::State(task.state),
        Piece::Text(" pc "),
        Piece::Word(hart.pc),
        Piece::Text("\n"),
    ];
    push_pieces(out, &line)
}

#[tactic(auto, using(crate::proofs::Below::owners))]
pub(crate) fn push_owners<D: Device>(out: &mut String, machine: &Machine<D>) -> Result<(), Refused>
    ensures { Appends (owners_text machine.now.board.parts) out.old out.new result }
{
    for m in 0..machine.mutex_count() {
        push_numbered_mutex(out, m, machine)?;
    }
    Ok(())
}

// The mutex of a number, if there is one.
fn push_numbered_mutex<D: Device>(
    out: &mut String,
    m: u8,
    machine: &Machine<D>,
) -> Result<(), Refused>
    ensures { Appends (owner_text m (slice_get machine.now.board.parts.mutexes m)) out.old out.new result }
{
    match machine.mutex(m) {
        None => Ok(()),
        Some(mutex) => push_owner(out, m, &mutex),
    }
}

fn push_owner(out: &mut String, m: u8, mutex: &Mutex) -> Result<(), Refused>
    ensures { Appends (owner_text m (Option.Some mutex.now)) out.old out.new result }
{
    let line = [
        Piece::Decimal(u64::from(m)),
        Piece::Text(" owner "),
        Piece::Number(mutex.owner),
        Piece::Text(" count "),
        Piece::Decimal(mutex.count),
        Piece::Text("\n"),
    ];
    push_pieces(out, &line)
}

pub(crate) fn push_rank(out: &mut String, rank: u16) -> Result<(), Refused>
    ensures { Appends (rank_text rank) out.old out.new result }
{
    let line = [
        Piece::Text("rank "),
        Piece::Decimal(u64::from(rank)),
        Piece::Text("\n"),
    ];
    push_pieces(out, &line)
}

pub(crate) fn push_stages(
    out: &mut String,
    c: u8,
    processor: &Processor,
    stages: &Stages,
) -> Result<(), Refused>
    ensures { Appends (stages_text c processor.now stages.now) out.old out.new result }
{
    let line = [
        Piece::Text("cpu "),
        Piece::Decimal(u64::from(c)),
        Piece::Text(" current "),
        Piece::Number(processor.current),
        Piece::Text(" oob "),
        Piece::Bit(stages.oob.stalled),
        Piece::Text(" "),
        Piece::Lines(stages.oob.lines),
        Piece::Text(" in "),
        Piece::Bit(stages.in_band.stalled),
        Piece::Text(" "),
        Piece::Lines(stages.in_band.lines),
        Piece::Text(" task "),
        Piece::Number(processor.in_band_task),
        Piece::Text(" wire "),
        Piece::Lines(stages.wire),
        Piece::Text(" stop "),
        Piece::Bit(processor.stopped),
        Piece::Text(" skip "),
        Piece::Bit(processor.skip),
        Piece::Text("\n"),
    ];
    push_pieces(out, &line)
}

pub(crate) fn push_counts(out: &mut String, counts: &Counts) -> Result<(), Refused>
    ensures { Appends (counts_text counts.now) out.old out.new result }
{
    let line = [
        Piece::Text("raised "),
        Piece::Decimal(counts.raised),
        Piece::Text(" merged "),
        Piece::Decimal(counts.merged),
        Piece::Text(" received "),
        Piece::Decimal(counts.received),
        Piece::Text(" oob "),
        Piece::Decimal(counts.oob.arrivals),
        Piece::Text(" "),
        Piece::Decimal(counts.oob.merged),
        Piece::Text(" "),
        Piece::Decimal(counts.oob.played),
        Piece::Text(" in "),
        Piece::Decimal(counts.in_band.arrivals),
        Piece::Text(" "),
        Piece::Decimal(counts.in_band.merged),
        Piece::Text(" "),
        Piece::Decimal(counts.in_band.played),
        Piece::Text("\n"),
    ];
    push_pieces(out, &line)
}
