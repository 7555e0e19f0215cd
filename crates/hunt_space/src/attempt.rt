//! One event, and what comes of it.

ghost use Rattle.evm_model.specs.Replay.{IsReplayOf};
ghost use Rattle.evm_model.specs.State.{State};
ghost use Rattle.hunt_schedules.specs.Branches.{event_of_choice};
ghost use Rattle.hunt_space.specs.Exploring.{ComesOfAttempt};

use hunt_failures::{Failure, Monitor, Wanted};
use hunt_schedules::{AnyDevice, Choice, Machine, advance};
use hunt_states::{Trail, store_of};

/// What came of an event.
#[derive(Clone, Copy, Debug)]
pub enum Attempt {
    /// It was accepted, and nothing that is looked for failed.
    Harmless,
    /// It made the machine fail.
    Fails(Failure),
    /// It was refused.
    Refused,
}

/// Makes the event of a choice, and notes what it stores.
pub(crate) fn make(
    machine: &mut Machine<AnyDevice>,
    choice: Choice,
    wanted: &Wanted,
    trail: &mut Trail,
) -> Attempt
    ensures made { ComesOfAttempt wanted.now machine.old (event_of_choice choice) machine.new result }
    ensures replays { (first : State) → IsReplayOf first machine.old → IsReplayOf first machine.new }
{
    let mut monitor = Monitor::new();
    let event = choice.event();
    let store = store_of(machine, event);
    match advance(machine, event, wanted, &mut monitor) {
        Ok(Some(failure)) => Attempt::Fails(failure),
        Ok(None) => {
            trail.follow(machine, &store);
            Attempt::Harmless
        }
        Err(_) => Attempt::Refused,
    }
}
