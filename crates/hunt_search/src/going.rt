//! A branch goes on with its processor, up to a state that the search has passed.

ghost use Rattle.std.specs.Prelude.{◌≡◌, ◌∷◌, ◌++◌, [], true, false, length, slice_get, IfOk, Option};
ghost use Rattle.hunt_search.specs.Searches.{is_failed};
ghost use Rattle.evm_model.specs.Replay.{IsReplayOf};
ghost use Rattle.evm_model.specs.State.{State};
ghost use Rattle.hunt_schedules.specs.Beginning.{Begins};
ghost use Rattle.hunt_failures.specs.Failures.{FailsAsWanted};
ghost use Rattle.hunt_schedules.specs.Making.{MayMake};
ghost use Rattle.hunt_schedules.specs.Runs.{Ends};
ghost use Rattle.hunt_schedules.specs.Branches.{KeepsBranches};
ghost use Rattle.hunt_schedules.specs.Covering.{IsCovered};
ghost use Rattle.hunt_schedules.specs.Searches.{HasWalked, IsPassed};
ghost use Rattle.hunt_schedules.specs.Walks.{IsReached};

use crate::seeing::is_seen;
use crate::tracking::Tracker;
use crate::trial::{Position, Trial};
use crate::walking::go_on_once;
use hunt_schedules::{AnyDevice, BeginFault, HuntStop, Machine, Queue, RunOutcome};
use hunt_states::{StateMark, StateMarks, hash_of};

/// How a branch has ended, and at how many states it went on.
#[derive(Clone, Copy, Debug)]
pub(crate) struct Walk {
    pub(crate) outcome: RunOutcome,
    pub(crate) steps: u32,
}

// The mark of a state, if one of its hash was passed; else it is marked.
fn mark_of(
    trial: &Trial<'_>,
    position: &Position<'_>,
    marks: &mut StateMarks,
) -> Option<StateMark> {
    if position.steps == 0 {
        marks.begin();
    }
    if !trial.target.wanted.looks_at_states() || marks.has_too_many_misses() {
        return None;
    }
    let hash = hash_of(position.machine, trial.branch.cpu, &position.trail);
    let mark = marks.find(hash);
    if mark.is_none() {
        marks.add(hash, trial.walked.len() as u64, position.steps);
    }
    mark
}

// Whether a state, which the last branch has reached by some steps, is covered by one that the search has passed.
fn is_covered(
    trial: &Trial<'_>,
    position: &Position<'_>,
    queue: &Queue,
    marks: &mut StateMarks,
) -> Result<bool, BeginFault>
    requires { (first : State) → Begins trial.now.target.image.now trial.now.target.boot.now first → IsReached first trial.now.branch.now position.now.steps position.now.machine.now }
    ensures { IfOk result (λ covered. covered ≡ true → (first : State) → Begins trial.now.target.image.now trial.now.target.boot.now first → IsCovered (IsPassed first queue.now.branches.items (trial.now.walked.now ++ position.now.steps ∷ [])) position.now.machine.now trial.now.branch.now.cpu (length trial.now.branch.now.turns.items)) }
{
    let Some(mark) = mark_of(trial, position, marks) else {
        return Ok(false);
    };
    match is_seen(trial, position, queue, mark) {
        Ok(true) => Ok(true),
        Ok(false) => {
            marks.miss();
            Ok(false)
        }
        Err(fault) => Err(fault),
    }
}

/// Goes on with the processor of the last branch as long as it can step and comes to no state that is covered, and adds the branches that
/// go another way.
///
/// # Errors
///
/// Memory was refused.
pub(crate) fn go_on(
    trial: &Trial<'_>,
    machine: &mut Machine<AnyDevice>,
    tracker: &mut Tracker,
    queue: &mut Queue,
    marks: &mut StateMarks,
) -> Result<Walk, HuntStop>
    requires begins { (first : State) → Begins trial.now.target.image.now trial.now.target.boot.now first → IsReached first trial.now.branch.now 0 machine.old }
    requires there { slice_get queue.old.branches.items (length trial.now.walked.now) ≡ Option.Some trial.now.branch.now }
    ensures keeps { KeepsBranches queue.old.branches.items queue.new.branches.items }
    ensures cut { queue.new.cut ≡ false → queue.old.cut ≡ false }
    ensures ends { IfOk result (λ walk. Ends trial.now.target.wanted.now.lines walk.outcome machine.new) }
    ensures walks { IfOk result (λ walk. is_failed walk.outcome ≡ false → queue.new.cut ≡ false → (first : State) → Begins trial.now.target.image.now trial.now.target.boot.now first → HasWalked (MayMake trial.now.target.wanted.now.lines) (FailsAsWanted trial.now.target.wanted.now) first trial.now.switches queue.new.branches.items trial.now.walked.now trial.now.branch.now walk.steps machine.old) }
    ensures replays { (first : State) → IsReplayOf first machine.old → IsReplayOf first machine.new }
{
    'steps: for steps in 0..u32::MAX {
        let position = Position {
            machine,
            trail: tracker.trail,
            steps,
        };
        match is_covered(trial, &position, queue, marks) {
            Ok(true) => {
                return Ok(Walk {
                    outcome: RunOutcome::Over,
                    steps,
                });
            }
            Ok(false) => {}
            Err(fault) => return Err(HuntStop::from(fault)),
        }
        match go_on_once(trial, machine, steps, tracker, queue) {
            Ok(None) => {}
            Ok(Some(outcome)) => {
                return Ok(Walk {
                    outcome,
                    steps: steps + 1,
                });
            }
            Err(fault) => return Err(HuntStop::from(fault)),
        }
    }
    queue.cut = true;
    Ok(Walk {
        outcome: RunOutcome::Full,
        steps: u32::MAX,
    })
}
