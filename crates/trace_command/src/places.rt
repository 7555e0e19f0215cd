//! The places that are told of each event.

ghost use Rattle.std.specs.Prelude.{◌≡◌, ◌++◌, OnOk, flat_map, slice_get};
ghost use Rattle.trace_command.specs.Spots.{spot_of, owner_place, spots_of};

use evm_devs::AnyDevice;
use evm_room::{Refused, grow};
use run_marks::Mark;
use run_walk::Machine;
use trace_records::{CodePlace, Doing};

/// How many bytes behind its ECALL a task is that waits.
const CALL: u64 = 4;

/// What a task does, and where: `back` bytes in front of its pc.
#[derive(Clone, Copy)]
struct Spot {
    doing: Doing,
    back: u64,
}

// A task does this at its pc.
fn at_pc(doing: Doing) -> Spot
    ensures { result ≡ record { doing = doing; back = 0 } }
{
    Spot { doing, back: 0 }
}

// A task does this at the ECALL that it has made.
fn at_call(doing: Doing) -> Spot
    ensures { result ≡ record { doing = doing; back = 4 } }
{
    Spot { doing, back: CALL }
}

fn place(
    list: &mut Vec<CodePlace>,
    machine: &Machine<AnyDevice>,
    task: u8,
    at: u64,
    spot: Spot,
) -> Result<(), Refused>
    ensures { OnOk result (list.new.items ≡ list.old.items ++ spot_of task at spot.doing spot.back (slice_get machine.now.board.parts.harts task)) }
{
    match machine.hart(task) {
        None => Ok(()),
        Some(hart) => {
            grow(list, 1)?;
            list.push_reserved(CodePlace {
                task,
                at,
                doing: spot.doing,
                address: hart.pc.saturating_sub(spot.back),
            });
            Ok(())
        }
    }
}

fn place_owner(
    list: &mut Vec<CodePlace>,
    machine: &Machine<AnyDevice>,
    mutex: u8,
    owner: Option<u8>,
    at: u64,
) -> Result<(), Refused>
    ensures { OnOk result (list.new.items ≡ list.old.items ++ owner_place machine.now.board.parts.harts at mutex owner) }
{
    match owner {
        None => Ok(()),
        Some(task) => place(list, machine, task, at, at_call(Doing::Locks(mutex))),
    }
}

fn place_mark(
    list: &mut Vec<CodePlace>,
    machine: &Machine<AnyDevice>,
    mark: &Mark,
    at: u64,
) -> Result<(), Refused>
    ensures { OnOk result (list.new.items ≡ list.old.items ++ spots_of machine.now.board.parts.harts at mark.now) }
{
    match mark {
        Mark::Created { task } => place(list, machine, *task, at, at_pc(Doing::Begins)),
        Mark::Runs { task, .. } => place(list, machine, *task, at, at_pc(Doing::Runs)),
        Mark::Waits { task, .. } => place(list, machine, *task, at, at_call(Doing::Waits)),
        Mark::Owner { mutex, to, .. } => place_owner(list, machine, *mutex, *to, at),
        Mark::Raised { .. } => Ok(()),
        Mark::Received { .. } => Ok(()),
        Mark::Played { .. } => Ok(()),
        Mark::Rank { .. } => Ok(()),
        Mark::Idles { .. } => Ok(()),
        Mark::Stop { .. } => Ok(()),
        Mark::Stall { .. } => Ok(()),
        Mark::Woken { .. } => Ok(()),
        Mark::Deadline { .. } => Ok(()),
        Mark::Migrates { .. } => Ok(()),
        Mark::Moves { .. } => Ok(()),
        Mark::Ended { .. } => Ok(()),
        Mark::Faulted { .. } => Ok(()),
        Mark::Ticked { .. } => Ok(()),
        Mark::Notice { .. } => Ok(()),
    }
}

/// Tells the places of an event: where tasks begin, run, wait and lock.
pub(crate) fn place_marks(
    list: &mut Vec<CodePlace>,
    machine: &Machine<AnyDevice>,
    marks: &[Mark],
    at: u64,
) -> Result<(), Refused>
    ensures { OnOk result (list.new.items ≡ list.old.items ++ flat_map (spots_of machine.now.board.parts.harts at) marks.now) }
{
    for mark in marks {
        place_mark(list, machine, mark, at)?;
    }
    Ok(())
}

/// Tells where the tasks are before the first event.
pub(crate) fn place_tasks(
    list: &mut Vec<CodePlace>,
    machine: &Machine<AnyDevice>,
) -> Result<(), Refused> {
    for task in 0..machine.task_count() {
        place(list, machine, task, 0, at_pc(Doing::Begins))?;
    }
    Ok(())
}
