//! Statements by themselves, where the one label is `here`, 8 bytes behind the start of the text.

use crate::call::{Call, given, sides};
use crate::writing::{push, push_gap, push_quoted, push_yes};
use evm_asm_parser::{
    DataWidth, KeptLines, Labels, Section, Spot, Statement, StatementReading, behind_word,
    datum_in, first_operand, first_word, how_many, mnemonic_named, other_operands, statement_of,
};
use evm_isa::encode;
use std::io::{self, ErrorKind};

const HERE: Spot = Spot {
    section: Section::Text,
    offset: 8,
};

fn labels_with_here(call: &Call<'_>) -> io::Result<Labels> {
    let mut labels = Labels::new(call.alloc);
    if labels.find(b"here").is_none() {
        given(labels.add(call.alloc, b"here", HERE))?;
    }
    Ok(labels)
}

// What a line without labels says.
fn reading_of(labels: &Labels, line: &str) -> io::Result<StatementReading> {
    let text = line.as_bytes();
    match mnemonic_named(first_word(text)) {
        Some(mnemonic) => Ok(statement_of(labels, mnemonic, behind_word(text))),
        None => Err(ErrorKind::InvalidInput.into()),
    }
}

/// What a line says: the word of an instruction that names no label, or any other statement, or the kind of its fault.
pub(crate) fn statement(call: &Call<'_>, out: &mut String) -> io::Result<()> {
    match reading_of(&labels_with_here(call)?, call.text()?)? {
        Ok(Statement::One(inst)) => {
            let Some(word) = encode(inst) else {
                return Err(ErrorKind::InvalidData.into());
            };
            Ok(write!(out, "{word:08x}")?)
        }
        Ok(statement) => Ok(write!(out, "{statement:?}")?),
        Err(kind) => Ok(write!(out, "{kind:?}")?),
    }
}

/// Whether the statement of each line is kept.
pub(crate) fn kept(call: &Call<'_>, out: &mut String) -> io::Result<()> {
    let labels = labels_with_here(call)?;
    let mut kept = KeptLines::new(call.alloc);
    for line in call.text()?.lines() {
        let reading = reading_of(&labels, line)?;
        given(kept.keep(HERE, &reading))?;
    }
    for line in kept.lines() {
        push_gap(out)?;
        push_yes(out, line.is_some())?;
    }
    Ok(())
}

fn width_of(word: &str) -> io::Result<DataWidth> {
    match word {
        "byte" => Ok(DataWidth::Byte),
        "word" => Ok(DataWidth::Word),
        "dword" => Ok(DataWidth::Dword),
        _ => Err(ErrorKind::InvalidInput.into()),
    }
}

/// What a text is as a datum of the width before the bar.
pub(crate) fn datum(call: &Call<'_>, out: &mut String) -> io::Result<()> {
    let (width, text) = sides('|', call.text()?)?;
    let labels = labels_with_here(call)?;
    match datum_in(&labels, width_of(width)?, text.as_bytes()) {
        Ok(datum) => Ok(write!(out, "{datum:?}")?),
        Err(kind) => Ok(write!(out, "{kind:?}")?),
    }
}

/// How many operands there are, the first, and the others.
pub(crate) fn operands(call: &Call<'_>, out: &mut String) -> io::Result<()> {
    let text = call.argument;
    let count = how_many(text);
    write!(out, "{count} ")?;
    push_quoted(out, first_operand(text))?;
    push(out, " ")?;
    push_quoted(out, other_operands(text))
}
