//! The events of a path are made again.

ghost use Rattle.std.specs.Prelude.{◌≡◌, ◌∷◌, [], replicate};
ghost use Rattle.evm_model.specs.Event.{event_lent};
ghost use Rattle.evm_model.specs.Replay.{IsReplayOf, replay};
ghost use Rattle.evm_model.specs.State.{State};
ghost use Rattle.hunt_schedules.specs.Branches.{event_of_choice, events_of_turns, turn_events};

use evm_model::{Block, Event};
use hunt_schedules::{AnyDevice, Choice, CpuTurn, Machine};

/// Makes Steps of a processor.
pub(crate) fn repeat_steps(machine: &mut Machine<AnyDevice>, cpu: u8, steps: u32)
    ensures repeats { machine.new ≡ replay machine.old (replicate steps (Event.Step cpu)) }
    ensures replays { (first : State) → IsReplayOf first machine.old → IsReplayOf first machine.new }
{
    match machine.steps(cpu, steps) {
        Ok(()) => {}
        Err(_) => {}
    }
}

// Makes an event.
fn repeat_event(machine: &mut Machine<AnyDevice>, event: Event<&Block>)
    ensures repeats { machine.new ≡ replay machine.old (event_lent event.entry ∷ []) }
    ensures replays { (first : State) → IsReplayOf first machine.old → IsReplayOf first machine.new }
{
    match machine.apply(event) {
        Ok(_) => {}
        Err(_) => {}
    }
}

// Makes the event of a choice.
fn repeat_choice(machine: &mut Machine<AnyDevice>, choice: Choice)
    ensures repeats { machine.new ≡ replay machine.old (event_of_choice choice ∷ []) }
    ensures replays { (first : State) → IsReplayOf first machine.old → IsReplayOf first machine.new }
{
    match choice {
        Choice::Step(cpu) => repeat_event(machine, Event::Step(cpu)),
        Choice::Tick => repeat_event(machine, Event::Tick),
        Choice::Raise(cpu, line) => repeat_event(machine, Event::Raise(cpu, line)),
    }
}

// Makes the events of a turn.
fn repeat_turn(machine: &mut Machine<AnyDevice>, turn: &CpuTurn)
    ensures repeats { machine.new ≡ replay machine.old (turn_events turn.now) }
    ensures replays { (first : State) → IsReplayOf first machine.old → IsReplayOf first machine.new }
{
    repeat_steps(machine, turn.cpu, turn.steps);
    repeat_choice(machine, turn.choice);
}

/// Makes the events of turns.
pub(crate) fn repeat_turns(machine: &mut Machine<AnyDevice>, turns: &[CpuTurn])
    ensures repeats { machine.new ≡ replay machine.old (events_of_turns turns.now) }
    ensures replays { (first : State) → IsReplayOf first machine.old → IsReplayOf first machine.new }
{
    'turns: for turn in turns {
        repeat_turn(machine, turn);
    }
}
