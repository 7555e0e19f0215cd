//! Details of a faulty line, beside the message of its fault.

ghost use Rattle.std.specs.Prelude.{◌≡◌};
ghost use Rattle.evm_asm.specs.Details.{name_detail, unknown_detail, token_at, token_text, places_of, operands_detail, range_from_zero, width_range, range_of, distance_of, limits_of, line_detail, source_detail};
ghost use Rattle.evm_asm_parser.specs.Forms.{form};

use crate::layout::{code_of, statement_text};
use crate::quoting::behind_lines;
use evm_asm_parser::{
    AsmFault, AsmFaultKind, DataWidth, Extension, Mnemonic, bad_token, before, behind_word,
    extension_of, first_word, how_many, mnemonic_named, skip_blanks,
};
use evm_isa::ShiftOp;

/// What is behind the fault of a line.
#[derive(Clone, Copy, Debug, PartialEq, Eq)]
pub enum SourceDetail {
    /// The unknown name stands where a mnemonic is wanted.
    Mnemonic,
    /// It begins with `.`, as a directive does.
    Directive,
    /// It stands where a register is wanted.
    Register,
    /// It is a mnemonic of an extension that isn't here.
    Extension(Extension),
    /// From this column on, in bytes from 1, there is no token; the byte there.
    Token { column: u64, byte: u8 },
    /// How many operands there are, and how many are wanted.
    Operands { found: u64, wanted: u64 },
    /// The number of the line must be -`below` to `above`.
    Range { below: u64, above: u64 },
    /// The label must be at most this many bytes back or ahead.
    Distance { back: u64, ahead: u64 },
}

/// What is wanted where this unknown word begins a statement.
fn name_detail(word: &[u8]) -> SourceDetail
    ensures { result ≡ name_detail word.now }
{
    if let [b'.', ..] = word {
        return SourceDetail::Directive;
    }
    match extension_of(word) {
        Some(extension) => SourceDetail::Extension(extension),
        None => SourceDetail::Mnemonic,
    }
}

fn unknown_detail(mnemonic: Option<Mnemonic>, statement: &[u8]) -> SourceDetail
    ensures { result ≡ unknown_detail mnemonic statement.now }
{
    match mnemonic {
        None => name_detail(first_word(statement)),
        Some(_) => SourceDetail::Register,
    }
}

/// The text from what is no token on, or the statement if all are.
fn token_text(text: &[u8]) -> &[u8]
    ensures { result.now ≡ token_text text.now }
{
    match bad_token(text) {
        Some(rest) => rest,
        None => skip_blanks(text),
    }
}

/// The first byte of the end of a line, and its column.
fn token_at(line: usize, rest: &[u8]) -> Option<SourceDetail>
    ensures { result ≡ token_at line rest.now }
{
    match rest {
        [] => None,
        [byte, ..] => Some(SourceDetail::Token {
            column: line.saturating_sub(rest.len()) as u64 + 1,
            byte: *byte,
        }),
    }
}

/// How many operands a mnemonic has that stands with `count` of them; None of a list.
fn places_of(count: usize, mnemonic: Mnemonic) -> Option<u64>
    ensures { result ≡ places_of (form count mnemonic) }
{
    match mnemonic {
        Mnemonic::Register(_) | Mnemonic::Word(_) | Mnemonic::Immediate(_) => Some(3),
        Mnemonic::Shift(_) | Mnemonic::Branch(_) | Mnemonic::BranchSwapped(_) => Some(3),
        Mnemonic::Load(_) | Mnemonic::Store(_) | Mnemonic::Lui | Mnemonic::Auipc => Some(2),
        Mnemonic::Jal | Mnemonic::Jalr => Some(if count == 1 { 1 } else { 2 }),
        Mnemonic::Unary(_) | Mnemonic::BranchZero(_) | Mnemonic::ZeroBranch(_) => Some(2),
        Mnemonic::LoadImmediate | Mnemonic::LoadAddress => Some(2),
        Mnemonic::Jump | Mnemonic::JumpRegister => Some(1),
        Mnemonic::Space | Mnemonic::Align | Mnemonic::Global => Some(1),
        Mnemonic::Bare(_) | Mnemonic::Section(_) => Some(0),
        Mnemonic::Numbers(_) => None,
    }
}

/// How many operands there are and how many are wanted, where these differ.
fn operands_detail(mnemonic: Mnemonic, found: usize) -> Option<SourceDetail>
    ensures { result ≡ operands_detail mnemonic found }
{
    let wanted = places_of(found, mnemonic)?;
    let found = found as u64;
    if found == wanted {
        None
    } else {
        Some(SourceDetail::Operands { found, wanted })
    }
}

fn width_range(width: DataWidth) -> SourceDetail
    ensures { result ≡ width_range width }
{
    match width {
        DataWidth::Byte => SourceDetail::Range {
            below: 128,
            above: 255,
        },
        DataWidth::Word => SourceDetail::Range {
            below: 2147483648,
            above: 4294967295,
        },
        DataWidth::Dword => SourceDetail::Range {
            below: 9223372036854775808,
            above: 18446744073709551615,
        },
    }
}

fn range_from_zero(above: u64) -> Option<SourceDetail>
    ensures { result ≡ range_from_zero above }
{
    Some(SourceDetail::Range { below: 0, above })
}

/// The limits of the number of a mnemonic that stands with `count` operands.
fn range_of(count: usize, mnemonic: Mnemonic) -> Option<SourceDetail>
    ensures { result ≡ range_of (form count mnemonic) }
{
    let offset = SourceDetail::Range {
        below: 2048,
        above: 2047,
    };
    match mnemonic {
        Mnemonic::Immediate(_) | Mnemonic::Load(_) | Mnemonic::Store(_) => Some(offset),
        Mnemonic::Jalr => { if count == 1 { None } else { Some(offset) } }
        Mnemonic::Shift(ShiftOp::Slli | ShiftOp::Srli | ShiftOp::Srai) => range_from_zero(63),
        Mnemonic::Shift(_) => range_from_zero(31),
        Mnemonic::Lui | Mnemonic::Auipc => range_from_zero(1048575),
        Mnemonic::LoadImmediate => Some(SourceDetail::Range {
            below: 2147483648,
            above: 2147483647,
        }),
        Mnemonic::Numbers(width) => Some(width_range(width)),
        Mnemonic::Space => range_from_zero(u64::MAX),
        Mnemonic::Align => range_from_zero(12),
        _ => None,
    }
}

/// How far the label of a mnemonic may be.
fn distance_of(mnemonic: Mnemonic) -> Option<SourceDetail>
    ensures { result ≡ distance_of mnemonic }
{
    match mnemonic {
        Mnemonic::Branch(_)
        | Mnemonic::BranchSwapped(_)
        | Mnemonic::BranchZero(_)
        | Mnemonic::ZeroBranch(_) => Some(SourceDetail::Distance {
            back: 4096,
            ahead: 4094,
        }),
        Mnemonic::Jal | Mnemonic::Jump => Some(SourceDetail::Distance {
            back: 1048576,
            ahead: 1048574,
        }),
        _ => None,
    }
}

fn limits_of(mnemonic: Mnemonic, count: usize) -> Option<SourceDetail>
    ensures { result ≡ limits_of mnemonic count }
{
    match range_of(count, mnemonic) {
        Some(range) => Some(range),
        None => distance_of(mnemonic),
    }
}

fn line_detail(kind: AsmFaultKind, code: &[u8]) -> Option<SourceDetail>
    ensures { result ≡ line_detail kind code.now }
{
    let text = statement_text(code);
    let statement = skip_blanks(text);
    let mnemonic = mnemonic_named(first_word(statement));
    let count = how_many(behind_word(statement));
    match kind {
        AsmFaultKind::BadToken => token_at(code.len(), token_text(text)),
        AsmFaultKind::UnknownName => Some(unknown_detail(mnemonic, statement)),
        AsmFaultKind::BadOperand => operands_detail(mnemonic?, count),
        AsmFaultKind::RangeOfImmediate => limits_of(mnemonic?, count),
        _ => None,
    }
}

/// The values of the source line behind a fault, as a count of operands. `None` if the message of its kind says all.
#[tactic(auto, unfolding(crate::specs::Details::source_detail))]
pub fn source_detail(source: &str, fault: AsmFault) -> Option<SourceDetail>
    ensures { result ≡ source_detail source.now fault }
{
    let rest = behind_lines(fault.line.saturating_sub(1), source.as_bytes());
    line_detail(fault.kind, code_of(before(b'\n', rest)))
}
