//! The lines with which a run ends.

ghost use Rattle.std.specs.Prelude.{◌≡◌, ◌≤◌, ◌++◌, length, IfOk, IfErr, codes};
ghost use Rattle.std.specs.String.{string_bytes};
ghost use Rattle.evm_diagnostics.specs.evm_text.Written.{decimal};
ghost use Rattle.evm_serve.specs.FaultLines.{fault_text, no_image_text};

use evm_diagnostics::{InputFault, JournalFault, push_decimal};
use evm_elf::{AsmFault, ElfFault};
use evm_room::{Refused, push_text};
use std::alloc::Global;

#[tactic(auto, using(crate::proofs::Lengths::lengths))]
fn with_one(alloc: Global, word: &str, number: u64) -> Result<String, Refused>
    ensures ok { IfOk result (λ text. string_bytes text ≡ word.now ++ decimal number ++ codes "\n") }
    // It gives up only where a growth by no more than the text was refused.
    ensures refused { IfErr result (λ asked. asked ≤ length (word.now ++ decimal number ++ codes "\n")) }
{
    let mut text = String::new(alloc);
    push_text(&mut text, word)?;
    push_decimal(&mut text, number)?;
    push_text(&mut text, "\n")?;
    Ok(text)
}

#[tactic(auto, using(crate::proofs::Lengths::lengths))]
fn with_two(alloc: Global, word: &str, first: u64, second: u64) -> Result<String, Refused>
    ensures ok { IfOk result (λ text. string_bytes text ≡ word.now ++ decimal first ++ codes " " ++ decimal second ++ codes "\n") }
    ensures refused { IfErr result (λ asked. asked ≤ length (word.now ++ decimal first ++ codes " " ++ decimal second ++ codes "\n")) }
{
    let mut text = String::new(alloc);
    push_text(&mut text, word)?;
    push_decimal(&mut text, first)?;
    push_text(&mut text, " ")?;
    push_decimal(&mut text, second)?;
    push_text(&mut text, "\n")?;
    Ok(text)
}

/// The line of a fault, at which a run ends.
pub(crate) fn fault_line(alloc: Global, fault: InputFault) -> Result<String, Refused>
    ensures ok { IfOk result (λ text. string_bytes text ≡ fault_text fault) }
    ensures refused { IfErr result (λ asked. asked ≤ length (fault_text fault)) }
{
    match fault {
        InputFault::BadLine(line, _) => with_one(alloc, "bad ", line),
        InputFault::Refused(line, _, refusal) => {
            with_two(alloc, "refused ", line, u64::from(refusal.number()))
        }
        InputFault::NoProgram(AsmFault { line, kind }) => {
            with_two(alloc, "asm ", line, u64::from(kind.number()))
        }
        InputFault::NoJournal(JournalFault { line, kind }) => {
            with_two(alloc, "journal ", line, u64::from(kind.number()))
        }
    }
}

/// What is reported of a file that is no image.
pub(crate) fn no_image(alloc: Global, fault: ElfFault) -> Result<String, Refused>
    ensures ok { IfOk result (λ text. string_bytes text ≡ no_image_text fault) }
    ensures refused { IfErr result (λ asked. asked ≤ length (no_image_text fault)) }
{
    with_one(alloc, "image ", u64::from(fault.number()))
}
