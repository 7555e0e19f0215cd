//! The words of sources: characters, names, numbers and faults.

use crate::call::{Call, decimal, sides};
use crate::writing::{push, push_quoted, push_some, push_some_decimal, push_yes};
use evm_asm_lexer::{
    AsmFault, AsmFaultKind, SourceFault, SourceFaultKind, after, before, behind_word, first_word,
    has_byte, is_name_start, is_sound, least, mnemonic_named, register_named, size, skip_blanks,
    starts_with_digit,
};
use std::io::{self, ErrorKind};

/// Whether a line has no bad token.
pub(crate) fn sound(call: &Call<'_>, out: &mut String) -> io::Result<()> {
    push_yes(out, is_sound(call.argument))
}

/// All bytes that may stand by themselves in a line, that begin a name, or that are digits.
pub(crate) fn characters(call: &Call<'_>, out: &mut String) -> io::Result<()> {
    let kind = call.text()?;
    let mut found = Vec::new(call.alloc);
    for byte in 0u8..=255 {
        let is_one = match kind {
            "sound" => is_sound(&[byte]),
            "name" => is_name_start(byte),
            _ => starts_with_digit(&[byte]),
        };
        if is_one {
            found.push(byte)?;
        }
    }
    push_quoted(out, found.as_slice())
}

/// The number that a word is.
pub(crate) fn number_size(call: &Call<'_>, out: &mut String) -> io::Result<()> {
    push_some_decimal(out, size(call.argument))
}

// Two texts.
fn push_two(out: &mut String, front: &[u8], rest: &[u8]) -> io::Result<()> {
    push_quoted(out, front)?;
    push(out, " ")?;
    push_quoted(out, rest)
}

/// The first word, and what follows it.
pub(crate) fn word(call: &Call<'_>, out: &mut String) -> io::Result<()> {
    let text = call.argument;
    push_two(out, first_word(text), behind_word(text))
}

/// What is before the first comma, and behind it; whether there is one.
pub(crate) fn cut_at_comma(call: &Call<'_>, out: &mut String) -> io::Result<()> {
    let text = call.argument;
    push_two(out, before(b',', text), after(b',', text))?;
    push(out, " ")?;
    push_yes(out, has_byte(b',', text))
}

/// The text behind its blanks.
pub(crate) fn blanks(call: &Call<'_>, out: &mut String) -> io::Result<()> {
    push_quoted(out, skip_blanks(call.argument))
}

/// What a mnemonic means.
pub(crate) fn mnemonic(call: &Call<'_>, out: &mut String) -> io::Result<()> {
    push_some(out, mnemonic_named(call.argument))
}

/// The number of a register.
pub(crate) fn register(call: &Call<'_>, out: &mut String) -> io::Result<()> {
    let register = register_named(call.argument);
    push_some_decimal(out, register.map(|register| u64::from(register.number())))
}

fn kind_numbered(number: u64) -> io::Result<SourceFaultKind> {
    match number {
        1 => Ok(SourceFaultKind::BadToken),
        2 => Ok(SourceFaultKind::UnknownName),
        3 => Ok(SourceFaultKind::BadOperand),
        4 => Ok(SourceFaultKind::RangeOfImmediate),
        5 => Ok(SourceFaultKind::LabelTwice),
        6 => Ok(SourceFaultKind::LabelMissing),
        7 => Ok(SourceFaultKind::TooLarge),
        _ => Err(ErrorKind::InvalidInput.into()),
    }
}

fn push_fault(out: &mut String, fault: AsmFault) -> io::Result<()> {
    let kind = fault.kind;
    let number = kind.number();
    Ok(write!(out, "{number} {kind:?}: {kind}; {fault}")?)
}

/// The number of a kind of fault, its name and its message, and that of a fault of line 8; kind 8 is no memory.
pub(crate) fn kind(call: &Call<'_>, out: &mut String) -> io::Result<()> {
    let number = decimal(call.text()?)?;
    if number == 8 {
        let kind = AsmFaultKind::NoMemory;
        return push_fault(out, AsmFault { line: 8, kind });
    }
    let kind = kind_numbered(number)?;
    let own = kind.number();
    write!(out, "{own} ")?;
    push_fault(out, SourceFault { line: 8, kind }.reported())
}

/// Of two kinds the one that is reported.
pub(crate) fn least_kind(call: &Call<'_>, out: &mut String) -> io::Result<()> {
    let (a, b) = sides(' ', call.text()?)?;
    let kind = least(kind_numbered(decimal(a)?)?, kind_numbered(decimal(b)?)?);
    Ok(write!(out, "{kind:?}")?)
}
