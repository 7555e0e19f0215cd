//! The word that a person is shown beside the message of a fault.

ghost use Rattle.std.specs.Prelude.{◌≡◌, option_copied};
ghost use Rattle.evm_asm.specs.Sources.{label_at};
ghost use Rattle.evm_asm.specs.Quoting.{register_text, unknown_in, unknown_register, unknown_name, last_name, missing_label, only_label, quoted_in, behind_lines, quoted};

use crate::layout::{code_of, label_at, statement_text};
use crate::place::is_directive;
use evm_asm_parser::{
    AsmFault, AsmFaultKind, Mnemonic, after, before, behind_word, first_operand, first_word,
    has_byte, how_many, mnemonic_named, name_in, other_operands, register_named, skip_blanks,
};

#[tactic(auto, unfolding(crate::specs::Quoting::register_text))]
fn register_text(operand: &[u8]) -> &[u8]
    ensures { result.now ≡ register_text operand.now }
{
    if has_byte(b'(', operand) {
        before(b')', after(b'(', operand))
    } else {
        operand
    }
}

#[tactic(auto, unfolding(crate::specs::Quoting::unknown_in))]
fn unknown_in(operand: &[u8]) -> Option<&[u8]>
    ensures { option_copied result ≡ unknown_in operand.now }
{
    match name_in(register_text(operand)) {
        Some(name) => {
            if register_named(name).is_some() {
                None
            } else {
                Some(name)
            }
        }
        None => None,
    }
}

/// The first name that stands for a register and is none.
#[tactic(auto, unfolding(crate::specs::Quoting::unknown_register))]
fn unknown_register(operands: &[u8]) -> Option<&[u8]>
    ensures { option_copied result ≡ unknown_register operands.now }
{
    if let Some(name) = unknown_in(first_operand(operands)) {
        return Some(name);
    }
    let others = other_operands(operands);
    if let Some(name) = unknown_in(first_operand(others)) {
        return Some(name);
    }
    unknown_in(first_operand(other_operands(others)))
}

fn unknown_name(mnemonic: Option<Mnemonic>, statement: &[u8]) -> Option<&[u8]>
    ensures { option_copied result ≡ unknown_name mnemonic statement.now }
{
    match mnemonic {
        None => Some(first_word(statement)),
        Some(_) => unknown_register(behind_word(statement)),
    }
}

#[tactic(auto, unfolding(crate::specs::Quoting::last_name))]
fn last_name(operands: &[u8]) -> Option<&[u8]>
    ensures { option_copied result ≡ last_name operands.now }
{
    let count = how_many(operands);
    if count == 1 {
        return name_in(first_operand(operands));
    }
    let others = other_operands(operands);
    if count == 2 {
        return name_in(first_operand(others));
    }
    name_in(first_operand(other_operands(others)))
}

fn missing_label(mnemonic: Option<Mnemonic>, operands: &[u8]) -> Option<&[u8]>
    ensures { option_copied result ≡ missing_label mnemonic operands.now }
{
    match mnemonic {
        None => None,
        Some(mnemonic) => {
            if is_directive(mnemonic) && how_many(operands) != 1 {
                None
            } else {
                last_name(operands)
            }
        }
    }
}

/// The label of a line that has no other.
fn only_label(code: &[u8]) -> Option<&[u8]>
    ensures { option_copied result ≡ only_label (label_at code.now) }
{
    match label_at(code) {
        None => None,
        Some((name, rest)) => {
            if label_at(rest).is_some() {
                None
            } else {
                Some(name)
            }
        }
    }
}

#[tactic(auto, unfolding(crate::specs::Quoting::quoted_in))]
fn quoted_in(kind: AsmFaultKind, code: &[u8]) -> Option<&[u8]>
    ensures { option_copied result ≡ quoted_in kind code.now }
{
    let statement = skip_blanks(statement_text(code));
    let mnemonic = mnemonic_named(first_word(statement));
    match kind {
        AsmFaultKind::UnknownName => unknown_name(mnemonic, statement),
        AsmFaultKind::LabelMissing => missing_label(mnemonic, behind_word(statement)),
        AsmFaultKind::LabelTwice => only_label(code),
        _ => None,
    }
}

/// The source behind its first lines.
pub(crate) fn behind_lines(lines: u64, source: &[u8]) -> &[u8]
    ensures { result.now ≡ behind_lines lines source.now }
{
    let mut rest = source;
    for _ in 0..lines {
        rest = after(b'\n', rest);
    }
    rest
}

/// The word that is wrong in the line that has this fault, where the kind of the fault tells which it is: a name that
/// is unknown, a label that is defined already, a label that no line defines.
#[tactic(auto, unfolding(crate::specs::Quoting::quoted))]
pub fn quoted(source: &str, fault: AsmFault) -> Option<&[u8]>
    ensures { option_copied result ≡ quoted source.now fault }
{
    let rest = behind_lines(fault.line.saturating_sub(1), source.as_bytes());
    quoted_in(fault.kind, code_of(before(b'\n', rest)))
}
