//! Whether a state is covered by one that a search has passed: its branch is played again, and the boards are compared.

ghost use Rattle.std.specs.Prelude.{◌≡◌, ◌<◌, ◌≤◌, ◌∷◌, ◌++◌, [], ℕ, true, length, slice_get, map, IfOk, Option};
ghost use Rattle.evm_model.specs.Devices.{Attached};
ghost use Rattle.evm_model.specs.State.{State};
ghost use Rattle.hunt_schedules.specs.Beginning.{Begins};
ghost use Rattle.hunt_schedules.specs.Covering.{Subsumes, IsCovered};
ghost use Rattle.hunt_schedules.specs.Searches.{IsPassed};
ghost use Rattle.hunt_schedules.specs.Walks.{IsReached};

use crate::tracking::Tracker;
use crate::trial::{Position, Trial};
use crate::walking::{begin_with, take_steps};
use claims_machine::device_kinds_never_change;
use hunt_failures::Wanted;
use hunt_schedules::{AnyDevice, BeginFault, Branch, Machine, Queue, begin};
use hunt_states::{StateMark, have_same_boards};

// Whether a branch makes some steps of a fresh machine, and nothing that is looked for fails.
fn goes(machine: &mut Machine<AnyDevice>, wanted: &Wanted, branch: &Branch, steps: u32) -> bool
    ensures { result ≡ true → IsReached machine.old branch.now steps machine.new }
{
    let mut tracker = Tracker::new();
    match begin_with(machine, branch.turns.as_slice(), wanted, &mut tracker) {
        Some(_) => return false,
        None => {}
    }
    match take_steps(machine, branch.cpu, steps, wanted, &mut tracker) {
        Some(_) => false,
        None => true,
    }
}

// Whether a branch has passed a state: those before the last of them for as many steps as were counted, the last for `steps` so far.
fn has_passed(walked: &[u32], steps: u32, mark: StateMark) -> bool
    ensures { result ≡ true → (count : ℕ) × (slice_get (walked.now ++ steps ∷ []) mark.place ≡ Option.Some count) × (mark.steps < count) }
{
    match walked.get(mark.place as usize) {
        Some(count) => mark.steps < *count,
        None => mark.place as usize == walked.len() && mark.steps < steps,
    }
}

// Whether a branch steps the same processor as another, and has no more switches.
fn has_no_more(seen: &Branch, branch: &Branch) -> bool
    ensures cpu { result ≡ true → seen.now.cpu ≡ branch.now.cpu }
    ensures switches { result ≡ true → length seen.now.turns.items ≤ length branch.now.turns.items }
{
    seen.cpu == branch.cpu && seen.turns.len() <= branch.turns.len()
}

// Whether a machine covers another, both reached by branches from the boot.
fn covers(seen: &Machine<AnyDevice>, machine: &Machine<AnyDevice>) -> bool
    ensures { result ≡ true → map (λ (device : Attached). device.kind) seen.now.board.memory.devices ≡ map (λ (device : Attached). device.kind) machine.now.board.memory.devices → Subsumes seen.now machine.now }
{
    if seen.event_count() > machine.event_count() {
        return false;
    }
    have_same_boards(seen, machine)
}

/// Whether the state of a machine, which the last branch has reached by some steps, is covered by that of a mark.
///
/// # Errors
///
/// Why there is no machine.
pub(crate) fn is_seen(
    trial: &Trial<'_>,
    position: &Position<'_>,
    queue: &Queue,
    mark: StateMark,
) -> Result<bool, BeginFault>
    requires { (first : State) → Begins trial.now.target.image.now trial.now.target.boot.now first → IsReached first trial.now.branch.now position.now.steps position.now.machine.now }
    ensures { IfOk result (λ seen. seen ≡ true → (first : State) → Begins trial.now.target.image.now trial.now.target.boot.now first → IsCovered (IsPassed first queue.now.branches.items (trial.now.walked.now ++ position.now.steps ∷ [])) position.now.machine.now trial.now.branch.now.cpu (length trial.now.branch.now.turns.items)) }
{
    let target = trial.target;
    let Some(other) = queue.get(mark.place) else {
        return Ok(false);
    };
    if !has_passed(trial.walked, position.steps, mark) {
        return Ok(false);
    }
    if !has_no_more(&other, trial.branch) {
        return Ok(false);
    }
    let mut seen = match begin(target.alloc, target.image, target.boot) {
        Ok(machine) => machine,
        Err(fault) => return Err(fault),
    };
    if !goes(&mut seen, target.wanted, &other, mark.steps) {
        return Ok(false);
    }
    device_kinds_never_change();
    Ok(covers(&seen, position.machine))
}
