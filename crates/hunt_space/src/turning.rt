//! A path is gone: from the state from which it forks.

ghost use Rattle.std.specs.Prelude.{◌≡◌, ◌++◌, ◌∷◌, [], false, IfOk};
ghost use Rattle.evm_model.specs.Replay.{IsReplayOf};
ghost use Rattle.hunt_schedules.specs.Runs.{Ends};
ghost use Rattle.hunt_search.specs.Searches.{is_failed};
ghost use Rattle.hunt_space.specs.Going.{ComesOfTurn, HasGone, IsNumbered};
ghost use Rattle.hunt_space.specs.Space.{KeepsPaths, KeepsPlaces};
ghost use Rattle.hunt_space.specs.Standing.{BeginsAfresh, IsStanding};

use crate::attempt::{Attempt, make};
use crate::frontier::Frontier;
use crate::going::{Going, Tally};
use crate::standing::Stand;
use crate::visited::Visited;
use crate::walking::go_on;
use hunt_schedules::{AnyDevice, CpuTurn, HuntStop, Machine, RunOutcome, go_back};
use hunt_states::Trail;

// Makes the turns of a path, the last of which ends with an event that no path has made before.
fn turn(
    going: &Going<'_>,
    front: &[CpuTurn],
    last: &CpuTurn,
    machine: &mut Machine<AnyDevice>,
    kept: &mut Stand,
    trail: &mut Trail,
) -> Result<Attempt, HuntStop>
    requires turns { going.now.path.now.turns.items ≡ front.now ++ last.now ∷ [] }
    requires first { BeginsAfresh going.now }
    requires stands { IsStanding going.now.first.now kept.old }
    ensures stands { IfOk result (λ attempt. IsStanding going.now.first.now kept.new) }
    ensures comes { IfOk result (λ attempt. ComesOfTurn going.now machine.new attempt) }
    ensures replays { IfOk result (λ attempt. IsReplayOf going.now.first.now machine.new) }
{
    match kept.take_to(going.first, front, last.cpu, last.steps) {
        Ok(()) => {}
        Err(stop) => return Err(stop),
    }
    match go_back(machine, &kept.machine) {
        Ok(()) => {}
        Err(fault) => return Err(HuntStop::from(fault)),
    }
    Ok(make(machine, last.choice, going.target.wanted, trail))
}

/// Goes a path. The machine that is kept stands before the event that ends its last turn.
///
/// # Errors
///
/// Memory was refused.
pub(crate) fn go(
    going: &Going<'_>,
    machine: &mut Machine<AnyDevice>,
    kept: &mut Stand,
    frontier: &mut Frontier,
    visited: &mut Visited,
    tally: &mut Tally,
) -> Result<RunOutcome, HuntStop>
    requires there { IsNumbered going.now frontier.old.paths.items }
    requires first { BeginsAfresh going.now }
    requires kept { IsStanding going.now.first.now kept.old }
    requires seen { IsStanding going.now.first.now visited.old.seen }
    ensures kept { IfOk result (λ outcome. IsStanding going.now.first.now kept.new) }
    ensures seen { IfOk result (λ outcome. IsStanding going.now.first.now visited.new.seen) }
    ensures keeps_paths { KeepsPaths frontier.old.paths.items frontier.new.paths.items }
    ensures keeps_places { KeepsPlaces visited.old.places.items visited.new.places.items }
    ensures cut { frontier.new.cut ≡ false → frontier.old.cut ≡ false }
    ensures ends { IfOk result (λ outcome. Ends going.now.target.wanted.now.lines outcome machine.new) }
    ensures goes { IfOk result (λ outcome. is_failed outcome ≡ false → frontier.new.cut ≡ false → HasGone going.now frontier.old.paths.items frontier.new.paths.items visited.old.places.items visited.new.places.items) }
    ensures replays { IfOk result (λ outcome. IsReplayOf going.now.first.now machine.new) }
{
    let mut trail = going.path.trail;
    let Some((last, front)) = going.path.turns.as_slice().split_last() else {
        match go_back(machine, going.first) {
            Ok(()) => return go_on(going, machine, trail, frontier, visited, tally),
            Err(fault) => return Err(HuntStop::from(fault)),
        }
    };
    tally.add_event();
    match turn(going, front, last, machine, kept, &mut trail) {
        Ok(Attempt::Harmless) => go_on(going, machine, trail, frontier, visited, tally),
        Ok(Attempt::Fails(failure)) => Ok(RunOutcome::Failed(failure)),
        Ok(Attempt::Refused) => {
            frontier.cut = true;
            Ok(RunOutcome::Full)
        }
        Err(stop) => Err(stop),
    }
}
