//! One event more, and what it has put.

ghost use Rattle.std.specs.Prelude.{◌≡◌, [], ◌∷◌, ◌++◌, IfErr, IfOk, IfSome, OnErr, OnOk, Result};
ghost use Rattle.evm_model.specs.Event.{event_lent};
ghost use Rattle.evm_model.specs.Replay.{apply, IsReplayOf};
ghost use Rattle.evm_model.specs.State.{State};
ghost use Rattle.run_schedule.specs.Advances.{HasAdvanced};
ghost use Rattle.run_schedule.specs.Endings.{HasEndedSo};

use crate::ending::{RunEnd, ending_of};
use crate::printing::{Printer, byte_ahead};
use evm_core::{Answer, Machine, Refusal};
use evm_devs::AnyDevice;
use evm_model::{Block, Event};
use evm_room::NoMemory;

// One event.
fn make(machine: &mut Machine<AnyDevice>, event: Event<&Block>) -> Result<Answer, Refusal>
    ensures ok { IfOk result (λ answer. apply machine.old (event_lent event.entry) ≡ Result.Ok (machine.new, answer)) }
    ensures err { IfErr result (λ refusal. apply machine.old (event_lent event.entry) ≡ Result.Err refusal) }
    ensures unchanged { OnErr result (machine.new ≡ machine.old) }
    ensures journaled { OnOk result (machine.new.journal ≡ machine.old.journal ++ event_lent event.entry ∷ []) }
    ensures booted { machine.new.boot ≡ machine.old.boot }
    ensures replays { (first : State) → IsReplayOf first machine.old → IsReplayOf first machine.new }
{
    machine.apply(event)
}

/// One event, and how the run has ended by it, if it has. What it has put is behind what was put.
///
/// # Errors
///
/// Memory was refused.
pub(crate) fn advance(
    machine: &mut Machine<AnyDevice>,
    event: Event<&Block>,
    printer: &mut Printer,
) -> Result<Option<RunEnd>, NoMemory>
    ensures ends { IfOk result (λ ended. IfSome ended (λ ending. HasEndedSo ending machine.new)) }
    ensures advanced { IfOk result (λ ended. HasAdvanced ended (event_lent event.entry) machine.old machine.new printer.old printer.new) }
    ensures replays { (first : State) → IsReplayOf first machine.old → IsReplayOf first machine.new }
{
    let byte = byte_ahead(machine, event);
    match make(machine, event) {
        Ok(answer) => {
            printer.take(byte, answer, machine)?;
            Ok(ending_of(machine, event, answer))
        }
        Err(refusal) => Ok(Some(RunEnd::Refused(refusal))),
    }
}
