//! Private rows are made at once: no other processor sees them.

ghost use Rattle.std.specs.Prelude.{◌≡◌, ◌<◌, ◌≤◌, true, IfOk};
ghost use Rattle.evm_model.specs.Replay.{IsReplayOf};
ghost use Rattle.evm_model.specs.State.{State};
ghost use Rattle.hunt_space.specs.Going.{LeadsTo};
ghost use Rattle.hunt_space.specs.Passing.{ComesOfRow, PassesRows};
ghost use Rattle.hunt_space.specs.Space.{KeepsPlaces};

use crate::going::{Going, Tally};
use crate::visited::{StatePlace, Visited};
use evm_model::Event;
use evm_room::NoMemory;
use hunt_schedules::{AnyDevice, Machine};

/// How many private rows are made at once. Behind them a state is explored, so that an endless loop hides no other processor.
const ROWS: u32 = 300;

// Makes the next row of the path's own processor, if it is private, and visits the state behind it; whether it did.
fn pass_row(
    going: &Going<'_>,
    machine: &mut Machine<AnyDevice>,
    steps: u32,
    visited: &mut Visited,
    tally: &mut Tally,
) -> Result<bool, NoMemory>
    ensures keeps { KeepsPlaces visited.old.places.items visited.new.places.items }
    ensures comes { IfOk result (λ passed. ComesOfRow going.now steps machine.old machine.new visited.old.places.items visited.new.places.items passed) }
    ensures seen { visited.new.seen ≡ visited.old.seen }
    ensures few { IfOk result (λ passed. passed ≡ true → steps < 4294967295) }
    ensures replays { (first : State) → IsReplayOf first machine.old → IsReplayOf first machine.new }
{
    if steps == u32::MAX {
        return Ok(false);
    }
    let cpu = going.path.cpu;
    if !going.text.is_next(machine, cpu) {
        return Ok(false);
    }
    tally.text.note(machine, cpu);
    match machine.apply(Event::Step(cpu)) {
        Ok(_) => {}
        Err(_) => return Ok(false),
    }
    let here = StatePlace {
        path: going.number,
        steps: steps + 1,
    };
    match visited.pass(here) {
        Ok(()) => Ok(true),
        Err(fault) => Err(fault),
    }
}

/// Makes private rows of the path's own processor, and visits the states behind them; by how many steps the path has come to the last.
///
/// # Errors
///
/// Memory was refused.
pub(crate) fn pass_rows(
    going: &Going<'_>,
    machine: &mut Machine<AnyDevice>,
    from: u32,
    visited: &mut Visited,
    tally: &mut Tally,
) -> Result<u32, NoMemory>
    requires { LeadsTo going.now from machine.old }
    ensures keeps { KeepsPlaces visited.old.places.items visited.new.places.items }
    ensures seen { visited.new.seen ≡ visited.old.seen }
    ensures leads { IfOk result (λ to. LeadsTo going.now to machine.new) }
    ensures passes { IfOk result (λ to. PassesRows going.now visited.old.places.items visited.new.places.items from to machine.old machine.new) }
    ensures replays { (first : State) → IsReplayOf first machine.old → IsReplayOf first machine.new }
{
    let mut steps = from;
    'rows: for _ in 0..ROWS {
        match pass_row(going, machine, steps, visited, tally) {
            Ok(true) => steps += 1,
            Ok(false) => return Ok(steps),
            Err(fault) => return Err(fault),
        }
    }
    Ok(steps)
}
