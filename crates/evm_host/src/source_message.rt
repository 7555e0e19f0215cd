//! The diagnostic of the fault of a source.

use evm_serve::{
    AsmFault, AsmFaultKind, Extension, SourceDetail, line_numbered, quoted, source_detail,
};
use evm_streams::{Diagnostic, Message, Numeral};

fn extension_message(extension: Extension) -> &'static str {
    match extension {
        Extension::Multiply => "an instruction of the M extension; the machine is RV64I",
        Extension::Atomic => "an instruction of the A extension; the machine is RV64I",
        Extension::Float => "an instruction of the F or D extension; the machine is RV64I",
        Extension::Compressed => "an instruction of the C extension; the machine is RV64I",
        Extension::Status => "an instruction of the Zicsr extension; the machine is RV64I",
        Extension::FenceI => "an instruction of the Zifencei extension; the machine is RV64I",
    }
}

// A number outside -`below` to `above`.
fn range_message(below: u64, above: u64) -> Message {
    if below == 0 {
        Message::WithOne("the number must be 0 to ", Numeral::Decimal(above), "")
    } else {
        Message::WithTwo(
            "the number must be -",
            Numeral::Decimal(below),
            " to ",
            Numeral::Decimal(above),
            "",
        )
    }
}

// A column at which no token or statement begins, by the byte there.
fn token_front(byte: u8) -> &'static str {
    if byte == 0xef {
        "byte ef, which begins a byte order mark, is no token; save the file without one; column "
    } else if byte == b'"' {
        "there are no strings; write the bytes by .byte; column "
    } else if byte == b'\'' {
        "there are no character constants; write the number; column "
    } else if byte == b'/' {
        "a comment begins with #; column "
    } else if byte == b';' {
        "a statement is a line of its own, and a comment begins with #; column "
    } else if byte == b'%' {
        "there is no %hi and no %lo; use la; column "
    } else if b'0' <= byte && byte <= b'9' {
        "a number is decimal or 0x and hexadecimal, and no label is a number; column "
    } else {
        "no token or statement begins at column "
    }
}

// The message of a detail of a fault.
fn source_detail_message(detail: SourceDetail) -> Message {
    match detail {
        SourceDetail::Mnemonic => Message::Plain("unknown mnemonic"),
        SourceDetail::Directive => Message::Plain("unknown directive"),
        SourceDetail::Register => Message::Plain("unknown register"),
        SourceDetail::Extension(extension) => Message::Plain(extension_message(extension)),
        SourceDetail::Token { column, byte } => {
            Message::WithOne(token_front(byte), Numeral::Decimal(column), "")
        }
        SourceDetail::Operands { found, wanted } => Message::WithTwo(
            "the number of operands, separated by commas, must be ",
            Numeral::Decimal(wanted),
            ", and is ",
            Numeral::Decimal(found),
            "",
        ),
        SourceDetail::Range { below, above } => range_message(below, above),
        SourceDetail::Distance { back, ahead } => Message::WithTwo(
            "the label must be even, and at most ",
            Numeral::Decimal(back),
            " bytes back or ",
            Numeral::Decimal(ahead),
            " ahead",
        ),
    }
}

// The message of a kind of fault.
fn kind_message(kind: AsmFaultKind) -> &'static str {
    match kind {
        AsmFaultKind::BadOperand => {
            "an operand is missing or of another kind, or the instruction is in .data or not at a multiple of 4"
        }
        _ => kind.message(),
    }
}

// A line from a column on, which counts bytes from 1.
fn from_column(column: u64, line: Option<&[u8]>) -> Option<&[u8]> {
    let line = line?;
    let before = column.saturating_sub(1) as usize;
    if before <= line.len() {
        Some(&line[before..])
    } else {
        None
    }
}

// What is quoted of the line of a fault.
fn quoted_part(source: &str, fault: AsmFault, detail: Option<SourceDetail>) -> Option<&[u8]> {
    match detail {
        Some(SourceDetail::Token { column, byte: _ }) => {
            from_column(column, line_numbered(fault.line, source.as_bytes()))
        }
        _ => quoted(source, fault),
    }
}

// The text between a message and its quote.
fn before_quote(detail: Option<SourceDetail>) -> &'static str {
    match detail {
        Some(SourceDetail::Token { column: _, byte: _ } | SourceDetail::Extension(_)) => ": \"",
        _ => " \"",
    }
}

/// The diagnostic of the fault of a source: the message, and the part of the line that it quotes.
pub fn source_diagnostic(source: &str, fault: AsmFault) -> Diagnostic<'_> {
    let detail = source_detail(source, fault);
    let message = match detail {
        Some(detail) => source_detail_message(detail),
        None => Message::Plain(kind_message(fault.kind)),
    };
    match quoted_part(source, fault, detail) {
        Some(word) => Diagnostic::Quoting(message, before_quote(detail), word),
        None => Diagnostic::Alone(message),
    }
}
