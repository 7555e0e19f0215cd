//! Sources, assembled.

use crate::call::Call;
use crate::writing::{
    push, push_gap, push_hex, push_quoted, push_some, push_some_hexadecimal, push_some_quoted,
};
use evm_asm::{Program, assemble, quoted, source_detail};
use std::io::{self, ErrorKind};

/// The line and the number of the fault.
pub(crate) fn fault(call: &Call<'_>, out: &mut String) -> io::Result<()> {
    match assemble(call.alloc, call.source()?) {
        Ok(_) => push(out, "none"),
        Err(fault) => {
            let line = fault.line;
            let number = fault.kind.number();
            Ok(write!(out, "{line} {number}")?)
        }
    }
}

/// The word that is wrong, and what else is known of the fault.
pub(crate) fn wrong_word(call: &Call<'_>, out: &mut String) -> io::Result<()> {
    let source = call.source()?;
    match assemble(call.alloc, source) {
        Ok(_) => push(out, "no fault"),
        Err(fault) => push_some_quoted(out, quoted(source, fault)),
    }
}

/// What is behind the fault.
pub(crate) fn detail(call: &Call<'_>, out: &mut String) -> io::Result<()> {
    let source = call.source()?;
    match assemble(call.alloc, source) {
        Ok(_) => push(out, "no fault"),
        Err(fault) => push_some(out, source_detail(source, fault)),
    }
}

// The program of a source that has no fault.
fn program(call: &Call<'_>, source: &str) -> io::Result<Program> {
    match assemble(call.alloc, source) {
        Ok(program) => Ok(program),
        Err(_) => Err(ErrorKind::InvalidData.into()),
    }
}

/// The bytes of the program.
pub(crate) fn bytes(call: &Call<'_>, out: &mut String) -> io::Result<()> {
    push_hex(out, program(call, call.source()?)?.bytes())
}

/// Of each word of the program that is an instruction its line, its address and itself.
pub(crate) fn words(call: &Call<'_>, out: &mut String) -> io::Result<()> {
    let program = program(call, call.source()?)?;
    for found in program.lines() {
        let line = found.line;
        let address = found.address;
        let word = found.word;
        push_gap(out)?;
        write!(out, "{line}:{address:x}:{word:08x}")?;
    }
    Ok(())
}

/// The words of the program that are instructions.
pub(crate) fn coded(call: &Call<'_>, out: &mut String) -> io::Result<()> {
    let program = program(call, call.source()?)?;
    for found in program.lines() {
        let word = found.word;
        push_gap(out)?;
        write!(out, "{word:08x}")?;
    }
    Ok(())
}

/// The address of the label before the bar, in the source behind it.
pub(crate) fn label(call: &Call<'_>, out: &mut String) -> io::Result<()> {
    let (name, source) = call.halves()?;
    push_some_hexadecimal(out, program(call, source)?.address_of(name))
}

/// The labels of the program in their order, each with its address.
pub(crate) fn labels(call: &Call<'_>, out: &mut String) -> io::Result<()> {
    let source = call.source()?;
    let program = program(call, source)?;
    for place in 0..=source.len() {
        if let Some((name, address)) = program.label(place) {
            push_gap(out)?;
            push_quoted(out, name)?;
            write!(out, " {address:x}")?;
        }
    }
    Ok(())
}
