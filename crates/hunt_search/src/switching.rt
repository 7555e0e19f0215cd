//! Every schedule with at most a number of switches.

ghost use Rattle.std.specs.Prelude.{◌≤◌, length, ◌≡◌, ◌∷◌, ◌++◌, [], false, true, slice_get, IfOk, OnOk, Option};
ghost use Rattle.hunt_search.specs.Hunts.{AreFound};
ghost use Rattle.hunt_search.specs.Searches.{is_failed};
ghost use Rattle.evm_model.specs.Replay.{IsReplayOf};
ghost use Rattle.evm_model.specs.State.{State};
ghost use Rattle.hunt_schedules.specs.Beginning.{Begins, ComesFrom};
ghost use Rattle.hunt_failures.specs.Failures.{FailsAsWanted};
ghost use Rattle.hunt_schedules.specs.Making.{MayMake, NeverFails};
ghost use Rattle.hunt_schedules.specs.Runs.{Ends};
ghost use Rattle.hunt_schedules.specs.Branches.{KeepsBranches};
ghost use Rattle.hunt_schedules.specs.Searches.{IsPassed, IsSearched};

use crate::going::{Walk, go_on};
use crate::hunting::{HuntRun, Report, note};
use crate::onlooker::Onlooker;
use crate::target::Target;
use crate::tracking::Tracker;
use crate::trial::Trial;
use crate::walking::begin_with;
use hunt_schedules::{AnyDevice, HuntStop, Machine, Queue, RunOutcome, begin};
use hunt_states::StateMarks;

/// What bounds the schedules.
#[derive(Clone, Copy, Debug)]
pub struct Switching {
    /// The most switches, up to 16: a step of another processor than the one that stepped last, a tick and a raise are one each.
    pub switches: u8,
    /// The most schedules that are looked at.
    pub schedules: u64,
    /// Whether the orders of locks are looked at.
    pub orders: bool,
}

// The run of the last branch on a fresh machine, and the branches that go another way.
fn run_branch(
    trial: &Trial<'_>,
    machine: &mut Machine<AnyDevice>,
    queue: &mut Queue,
    marks: &mut StateMarks,
) -> Result<Walk, HuntStop>
    requires begins { Begins trial.now.target.image.now trial.now.target.boot.now machine.old }
    requires fresh { IsReplayOf machine.old machine.old }
    requires there { slice_get queue.old.branches.items (length trial.now.walked.now) ≡ Option.Some trial.now.branch.now }
    ensures tried { IfOk result (λ walk. ComesFrom trial.now.target.image.now trial.now.target.boot.now machine.new × Ends trial.now.target.wanted.now.lines walk.outcome machine.new) }
    ensures keeps { KeepsBranches queue.old.branches.items queue.new.branches.items }
    ensures cut { queue.new.cut ≡ false → queue.old.cut ≡ false }
    ensures searches { IfOk result (λ walk. is_failed walk.outcome ≡ false → queue.new.cut ≡ false → (first : State) → Begins trial.now.target.image.now trial.now.target.boot.now first → IsSearched (MayMake trial.now.target.wanted.now.lines) (FailsAsWanted trial.now.target.wanted.now) first trial.now.switches queue.new.branches.items (IsPassed first queue.new.branches.items (trial.now.walked.now ++ walk.steps ∷ [])) trial.now.branch.now walk.steps) }
{
    let mut tracker = Tracker::new();
    let turns = trial.branch.turns.as_slice();
    match begin_with(machine, turns, trial.target.wanted, &mut tracker) {
        Some(failure) => {
            return Ok(Walk {
                outcome: RunOutcome::Failed(failure),
                steps: 0,
            });
        }
        None => {}
    }
    match go_on(trial, machine, &mut tracker, queue, marks) {
        Ok(walk) => Ok(walk),
        Err(stop) => Err(stop),
    }
}

// Looks at the last branch, and adds what it came to; at how many states it went on.
fn look_at<O: Onlooker>(
    trial: &Trial<'_>,
    queue: &mut Queue,
    marks: &mut StateMarks,
    report: &mut Report,
    onlooker: &mut O,
) -> Result<u32, HuntStop>
    requires found { AreFound trial.now.target.image.now trial.now.target.boot.now trial.now.target.wanted.now.lines report.old.rows.items }
    requires there { slice_get queue.old.branches.items (length trial.now.walked.now) ≡ Option.Some trial.now.branch.now }
    ensures found { OnOk result (AreFound trial.now.target.image.now trial.now.target.boot.now trial.now.target.wanted.now.lines report.new.rows.items) }
    ensures keeps { KeepsBranches queue.old.branches.items queue.new.branches.items }
    ensures cut { queue.new.cut ≡ false → queue.old.cut ≡ false }
    ensures rows { OnOk result (report.new.rows.items ≡ [] → report.old.rows.items ≡ []) }
    ensures searches { IfOk result (λ steps. report.new.rows.items ≡ [] → queue.new.cut ≡ false → (first : State) → Begins trial.now.target.image.now trial.now.target.boot.now first → IsSearched (MayMake trial.now.target.wanted.now.lines) (FailsAsWanted trial.now.target.wanted.now) first trial.now.switches queue.new.branches.items (IsPassed first queue.new.branches.items (trial.now.walked.now ++ steps ∷ [])) trial.now.branch.now steps) }
{
    let target = trial.target;
    let mut machine = match begin(target.alloc, target.image, target.boot) {
        Ok(machine) => machine,
        Err(fault) => return Err(HuntStop::from(fault)),
    };
    let walk = match run_branch(trial, &mut machine, queue, marks) {
        Ok(walk) => walk,
        Err(stop) => return Err(stop),
    };
    let run = HuntRun {
        seed: trial.walked.len() as u64,
        machine: &machine,
        outcome: walk.outcome,
    };
    match note(&target, &run, report, onlooker) {
        Ok(()) => Ok(walk.steps),
        Err(stop) => Err(stop),
    }
}

// Whether there are more branches than were looked at.
fn is_cut(queue: &Queue, place: u64) -> bool
    ensures { result ≡ false → (queue.now.cut ≡ false) × (length queue.now.branches.items ≤ place) }
{
    if queue.cut {
        return true;
    }
    queue.branches.len() as u64 > place
}

/// Looks at every schedule with at most a number of switches, those of the fewest first. In place of a seed a failure has the number of its
/// schedule.
///
/// # Errors
///
/// Memory was refused, or no machine boots with the image.
pub fn hunt_all<O: Onlooker>(
    target: &Target<'_>,
    bounds: &Switching,
    onlooker: &mut O,
) -> Result<Report, HuntStop>
    // each failure is one of a machine that was booted with the image
    ensures found { IfOk result (λ report. AreFound target.now.image.now target.now.boot.now target.now.wanted.now.lines report.rows.items) }
    // if it has found none, and there were no more schedules than may be looked at, no schedule fails
    ensures complete { IfOk result (λ report. report.rows.items ≡ [] → report.cut ≡ false → NeverFails target.now.image.now target.now.boot.now target.now.wanted.now bounds.now.switches) }
{
    let mut report = Report::new(target.alloc, bounds.orders);
    let mut queue = match Queue::new(target.alloc, bounds.schedules) {
        Ok(queue) => queue,
        Err(fault) => return Err(HuntStop::from(fault)),
    };
    let mut marks = match StateMarks::new(target.alloc) {
        Ok(marks) => marks,
        Err(fault) => return Err(HuntStop::from(fault)),
    };
    let mut walked = Vec::new(target.alloc);
    'places: for place in 0..bounds.schedules {
        if !onlooker.goes_on(place, report.rows.len() as u64) {
            report.set_cut(true);
            return Ok(report);
        }
        let Some(branch) = queue.get(place) else {
            report.set_cut(is_cut(&queue, place));
            return Ok(report);
        };
        let trial = Trial {
            target: *target,
            switches: bounds.switches,
            branch: &branch,
            walked: walked.as_slice(),
        };
        match look_at(&trial, &mut queue, &mut marks, &mut report, onlooker) {
            Ok(steps) => match walked.push(steps) {
                Ok(()) => {}
                Err(_) => return Err(HuntStop::NoMemory),
            },
            Err(stop) => return Err(stop),
        }
    }
    report.set_cut(is_cut(&queue, bounds.schedules));
    Ok(report)
}
