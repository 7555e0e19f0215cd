//! What is shown of a machine at the end of a replay.

ghost use Rattle.std.specs.Prelude.{◌≡◌, length, slice_get, OnErr, IfOk};
ghost use Rattle.std.specs.String.{string_bytes};
ghost use Rattle.evm_journal.specs.evm_text.Appending.{Appends};
ghost use Rattle.evm_journal.specs.evm_core.Views.{stages_at};
ghost use Rattle.evm_debug.specs.Summary.{stages_below, stages_or_none, summary_text};
ghost use Rattle.evm_room.specs.Growth.{RefusedWithin};

use crate::views::{push_owners, push_stages, push_tasks};
use evm_dev::Device;
use evm_journal::Machine;
use evm_room::{NoMemory, Refused};
use std::alloc::Global;

// The stages of the processor of a number, if there is one.
fn push_stages_of<D: Device>(out: &mut String, c: u8, machine: &Machine<D>) -> Result<(), Refused>
    ensures { Appends (stages_or_none c (slice_get machine.now.board.parts.processors c) (stages_at c machine.now.board.parts)) out.old out.new result }
{
    let Some(processor) = machine.cpu(c) else {
        return Ok(());
    };
    match machine.stages(c) {
        None => Ok(()),
        Some(stages) => push_stages(out, c, &processor, &stages),
    }
}

#[tactic(auto, using(crate::proofs::Below::stages))]
fn push_all_stages<D: Device>(out: &mut String, machine: &Machine<D>) -> Result<(), Refused>
    ensures { Appends (stages_below (length machine.now.board.parts.processors) machine.now.board.parts) out.old out.new result }
{
    for c in 0..machine.cpu_count() {
        push_stages_of(out, c, machine)?;
    }
    Ok(())
}

/// Appends the views that a replay ends with: the stages of each processor, the tasks, and the owners of the mutexes.
///
/// # Errors
///
/// An allocation failed. A part of the text may have been appended.
#[tactic(auto, using(crate::proofs::Below::lengths))]
pub fn push_summary<D: Device>(out: &mut String, machine: &Machine<D>) -> Result<(), Refused>
    ensures { Appends (summary_text machine.now) out.old out.new result }
{
    push_all_stages(out, machine)?;
    push_tasks(out, machine)?;
    push_owners(out, machine)
}

/// The views that a replay ends with, as `push_summary` appends them.
///
/// # Errors
///
/// An allocation failed.
pub fn summary<D: Device>(alloc: Global, machine: &Machine<D>) -> Result<String, NoMemory>
    ensures ok { IfOk result (λ text. string_bytes text ≡ summary_text machine.now) }
    // It gives up only where a growth was refused that is no greater than the text.
    ensures refused { OnErr result (RefusedWithin (length (summary_text machine.now))) }
{
    let mut text = String::new(alloc);
    match push_summary(&mut text, machine) {
        Ok(()) => Ok(text),
        Err(refused) => {
            refused.within();
            Err(NoMemory)
        }
    }
}
