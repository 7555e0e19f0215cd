//! A program that goes on by one instruction.

ghost use Rattle.std.specs.Prelude.{OnOk};
ghost use Rattle.gdb_driving.specs.Driving.{EndsWithStep};
ghost use Rattle.gdb_driving.specs.Kept.{KeepsJournal};

use crate::driving::{event, stop_all};
use crate::points::Points;
use crate::seeing::{Next, current_or, fault_of, next_of, watch_at};
use crate::stops::{TargetHalt, Why};
use evm_debug::{Event, Machine, Refusal};
use evm_dev::Device;

/// How many lines are received at most before the instruction of a step.
const LINES_BEFORE: u32 = 64;

// Who is stopped behind an instruction of a task: the task if it ended by a fault or met a watchpoint, else who runs now.
fn stepped<D: Device>(machine: &Machine<D>, cpu: u8, task: u8, watched: Option<Why>) -> TargetHalt {
    if let Some(halt) = fault_of(machine, task) {
        return halt;
    }
    match watched {
        Some(why) => TargetHalt { task, why },
        None => TargetHalt {
            task: current_or(machine, cpu, task),
            why: Why::Asked,
        },
    }
}

// Why the step of a processor meets a watchpoint.
fn watched_by<D: Device>(machine: &Machine<D>, points: &Points, next: Next) -> Option<Why> {
    match next {
        Next::Runs(task) => watch_at(machine, points, task),
        Next::Prepares | Next::Idles => None,
    }
}

/// One instruction of a processor, behind the lines that it receives first: who is stopped then. All are stopped before it.
///
/// # Errors
///
/// Why the first event was refused that was; those before it were made.
#[tactic(auto, using(crate::proofs::Kept::keeps_same, crate::proofs::Kept::keeps_more))]
pub fn step<D: Device>(
    machine: &mut Machine<D>,
    points: &Points,
    cpu: u8,
    looked: u8,
) -> Result<TargetHalt, Refusal>
    ensures kept { KeepsJournal machine.old machine.new }
    ensures stepped { OnOk result (EndsWithStep cpu machine.new) }
{
    stop_all(machine)?;
    'lines: for _line in 0..LINES_BEFORE {
        let next = next_of(machine, cpu);
        let watched = watched_by(machine, points, next);
        event(machine, Event::StepI(cpu))?;
        match next {
            Next::Prepares => {}
            Next::Runs(task) => return Ok(stepped(machine, cpu, task, watched)),
            Next::Idles => {
                return Ok(TargetHalt {
                    task: looked,
                    why: Why::Idle,
                });
            }
        }
    }
    Ok(TargetHalt {
        task: current_or(machine, cpu, looked),
        why: Why::Asked,
    })
}
