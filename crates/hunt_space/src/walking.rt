//! A path goes on: its processor steps, up to a state that is known.

ghost use Rattle.std.specs.Prelude.{◌≡◌, false, IfOk};
ghost use Rattle.evm_model.specs.Replay.{IsReplayOf};
ghost use Rattle.evm_model.specs.State.{State};
ghost use Rattle.hunt_schedules.specs.Runs.{Ends};
ghost use Rattle.hunt_search.specs.Searches.{is_failed};
ghost use Rattle.hunt_space.specs.Going.{HasGoneOn, IsNumbered, LeadsTo};
ghost use Rattle.hunt_space.specs.Space.{KeepsPaths, KeepsPlaces};
ghost use Rattle.hunt_space.specs.Standing.{BeginsAfresh, IsStanding};

use crate::exploring::explore;
use crate::frontier::Frontier;
use crate::going::{Going, Position, Tally};
use crate::passing::pass_rows;
use crate::seeing::{Arrival, mark, visit};
use crate::visited::Visited;
use hunt_schedules::{AnyDevice, HuntStop, Machine, RunOutcome};
use hunt_states::Trail;

/// Steps on from the state behind a path's turns.
///
/// # Errors
///
/// Memory was refused.
pub(crate) fn go_on(
    going: &Going<'_>,
    machine: &mut Machine<AnyDevice>,
    start: Trail,
    frontier: &mut Frontier,
    visited: &mut Visited,
    tally: &mut Tally,
) -> Result<RunOutcome, HuntStop>
    requires first { BeginsAfresh going.now }
    requires stands { IsStanding going.now.first.now visited.old.seen }
    requires there { IsNumbered going.now frontier.old.paths.items }
    requires at { LeadsTo going.now 0 machine.old }
    ensures keeps_paths { KeepsPaths frontier.old.paths.items frontier.new.paths.items }
    ensures keeps_places { KeepsPlaces visited.old.places.items visited.new.places.items }
    ensures stands { IfOk result (λ outcome. IsStanding going.now.first.now visited.new.seen) }
    ensures cut { frontier.new.cut ≡ false → frontier.old.cut ≡ false }
    ensures ends { IfOk result (λ outcome. Ends going.now.target.wanted.now.lines outcome machine.new) }
    ensures goes { IfOk result (λ outcome. is_failed outcome ≡ false → frontier.new.cut ≡ false → HasGoneOn going.now frontier.old.paths.items frontier.new.paths.items visited.old.places.items visited.new.places.items machine.old) }
    ensures replays { (first : State) → IsReplayOf first machine.old → IsReplayOf first machine.new }
{
    let mut trail = start;
    let mut steps = 0;
    'states: for _ in 0..u32::MAX {
        let position = Position {
            machine,
            trail,
            steps,
        };
        match visit(going, &position, frontier, visited) {
            Ok(Arrival::First) => {}
            Ok(Arrival::Again) => return Ok(RunOutcome::Over),
            Ok(Arrival::Cut) => return Ok(RunOutcome::Full),
            Err(stop) => return Err(stop),
        }
        let last = match pass_rows(going, machine, steps, visited, tally) {
            Ok(last) => last,
            Err(fault) => return Err(HuntStop::from(fault)),
        };
        let behind = Position {
            machine,
            trail,
            steps: last,
        };
        mark(going, &behind, steps, visited);
        match explore(going, machine, last, &mut trail, frontier, tally) {
            Ok(None) => {}
            Ok(Some(outcome)) => return Ok(outcome),
            Err(fault) => return Err(HuntStop::from(fault)),
        }
        if last == u32::MAX {
            frontier.cut = true;
            return Ok(RunOutcome::Full);
        }
        steps = last + 1;
    }
    frontier.cut = true;
    Ok(RunOutcome::Full)
}
