//! Events, each of which is an accepted event of the machine.

ghost use Rattle.std.specs.Prelude.{◌≡◌, false, true, IfOk, IfErr, OnErr, OnOk, Result};
ghost use Rattle.evm_model.specs.Event.{event_lent};
ghost use Rattle.evm_model.specs.Replay.{apply};
ghost use Rattle.gdb_driving.specs.Driving.{AllAre, GoesBy, IsStopped};
ghost use Rattle.gdb_driving.specs.Kept.{KeepsJournal};

use evm_debug::{Answer, Event, Machine, Refusal};
use evm_dev::Device;
use evm_model::Block;

/// One event.
pub fn event<D: Device>(machine: &mut Machine<D>, event: Event<&Block>) -> Result<Answer, Refusal>
    ensures ok { IfOk result (λ answer. apply machine.old (event_lent event.entry) ≡ Result.Ok (machine.new, answer)) }
    ensures err { IfErr result (λ refusal. apply machine.old (event_lent event.entry) ≡ Result.Err refusal) }
    ensures unchanged { OnErr result (machine.new ≡ machine.old) }
    ensures kept { KeepsJournal machine.old machine.new }
{
    machine.apply(event)
}

// Stops a processor that is not stopped.
#[tactic(auto, using(crate::proofs::Kept::keeps_same))]
fn stop<D: Device>(machine: &mut Machine<D>, cpu: u8) -> Result<(), Refusal>
    ensures kept { KeepsJournal machine.old machine.new }
    ensures stops { OnOk result (IsStopped cpu machine.old machine.new) }
{
    match machine.cpu(cpu) {
        Some(processor) if processor.stopped => Ok(()),
        _ => match event(machine, Event::Stop(cpu)) {
            Ok(_) => Ok(()),
            Err(refusal) => Err(refusal),
        },
    }
}

/// Stops the processors that are not stopped.
///
/// # Errors
///
/// Why the first of them can't be stopped.
#[tactic(auto, using(crate::proofs::Kept::keeps_same, crate::proofs::Kept::keeps_more))]
pub fn stop_all<D: Device>(machine: &mut Machine<D>) -> Result<(), Refusal>
    ensures kept { KeepsJournal machine.old machine.new }
    ensures stopped { OnOk result (AllAre true machine.new) }
{
    for c in 0..machine.cpu_count() {
        stop(machine, c)?;
    }
    Ok(())
}

// Lets a stopped processor go on.
#[tactic(auto, using(crate::proofs::Kept::keeps_same))]
fn go<D: Device>(machine: &mut Machine<D>, cpu: u8) -> Result<(), Refusal>
    ensures kept { KeepsJournal machine.old machine.new }
    ensures goes { OnOk result (GoesBy cpu machine.old machine.new) }
{
    match machine.cpu(cpu) {
        Some(processor) if processor.stopped => match event(machine, Event::Go(cpu)) {
            Ok(_) => Ok(()),
            Err(refusal) => Err(refusal),
        },
        _ => Ok(()),
    }
}

/// Lets the stopped processors go on.
///
/// # Errors
///
/// Why the first of them can't go on.
#[tactic(auto, using(crate::proofs::Kept::keeps_same, crate::proofs::Kept::keeps_more))]
pub fn go_all<D: Device>(machine: &mut Machine<D>) -> Result<(), Refusal>
    ensures kept { KeepsJournal machine.old machine.new }
    ensures going { OnOk result (AllAre false machine.new) }
{
    for c in 0..machine.cpu_count() {
        go(machine, c)?;
    }
    Ok(())
}
