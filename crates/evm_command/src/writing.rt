//! What a run came to, written.

ghost use Rattle.std.specs.Prelude.{ℕ, Result};
ghost use Rattle.evm_model.specs.State.{State};
ghost use Rattle.evm_model.specs.declared.refusal.Refusal.{Refusal};
ghost use Rattle.evm_command.specs.Workers.{Ends, IsOutcome};

use crate::outcome::{Outcome, RunEnding};
use evm_streams::{Sink, write_all};

/// Writes what a run came to.
pub(crate) fn write<W: Sink>(outcome: &Outcome, out: &mut W) -> RunEnding
    ensures { (turns : ℕ) (loaded : Result State Refusal) → IsOutcome turns loaded outcome.now → Ends W.takes turns loaded out.old out.new result }
{
    match write_all(out, outcome.text().as_bytes()) {
        Ok(()) => outcome.ending(),
        Err(fault) => RunEnding::WriteFailed(fault),
    }
}
