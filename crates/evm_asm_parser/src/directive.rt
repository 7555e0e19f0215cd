//! The directives: lists of numbers and labels, zeros, alignment and names.

ghost use Rattle.std.specs.Prelude.{◌≡◌, [], Ok};
ghost use Rattle.evm_asm_lexer.specs.declared.mnemonic.Mnemonic.TheVariants as names;
ghost use Rattle.evm_asm_parser.specs.declared.statement.Statement.TheVariants.{Numbers};
ghost use Rattle.evm_asm_parser.specs.Operands.{natural_in, number_datum, label_datum, datum_in};
ghost use Rattle.evm_asm_parser.specs.Statements.{also, with_data, statement_of};

use crate::labels::Labels;
use crate::operand::{
    Number, counted, first_operand, how_many, label_in, name_in, natural_in, number_in,
    other_operands, wrapped,
};
use crate::spot::Spot;
use crate::statement::{Datum, Statement, StatementReading};
use evm_asm_lexer::{DataWidth, SourceFaultKind, least};
use evm_isa::Shift;

fn number_datum(width: DataWidth, number: Number) -> Result<u64, SourceFaultKind>
    ensures { result ≡ number_datum width number }
{
    match width {
        DataWidth::Byte => wrapped(128, 255, number),
        DataWidth::Word => wrapped(2147483648, 4294967295, number),
        DataWidth::Dword => wrapped(9223372036854775808, 18446744073709551615, number),
    }
}

fn label_datum(
    labels: &Labels,
    width: DataWidth,
    text: &[u8],
) -> Result<Option<Spot>, SourceFaultKind>
    ensures { result ≡ label_datum labels.now width text.now }
{
    match width {
        DataWidth::Byte => Err(SourceFaultKind::BadOperand),
        DataWidth::Word | DataWidth::Dword => label_in(labels, text),
    }
}

/// The number or label that a text is, for a place of this width.
#[tactic(auto, unfolding(crate::specs::Operands::datum_in))]
pub fn datum_in(labels: &Labels, width: DataWidth, text: &[u8]) -> Result<Datum, SourceFaultKind>
    ensures { result ≡ datum_in labels.now width text.now }
{
    match number_in(text) {
        Some(number) => {
            let value = number_datum(width, number)?;
            Ok(Datum::Value(value))
        }
        None => {
            let spot = label_datum(labels, width, text)?;
            Ok(Datum::Label(spot))
        }
    }
}

/// The first of two readings of one line, or the least of their faults.
#[tactic(auto, unfolding(crate::specs::Statements::also))]
pub fn also<A: Drop, B: Drop>(
    a: Result<A, SourceFaultKind>,
    b: Result<B, SourceFaultKind>,
) -> Result<A, SourceFaultKind>
    ensures { result ≡ also a b }
{
    match (a, b) {
        (Ok(a), Ok(_)) => Ok(a),
        (Ok(_), Err(f)) => Err(f),
        (Err(e), Ok(_)) => Err(e),
        (Err(e), Err(f)) => Err(least(e, f)),
    }
}

#[tactic(auto, unfolding(crate::specs::Statements::with_data))]
fn with_data(labels: &Labels, width: DataWidth, count: u64, text: &[u8]) -> StatementReading
    ensures { result ≡ with_data labels.now width count (Ok (Numbers width count)) text.now }
{
    let mut read = Ok(Statement::Numbers { width, count });
    let mut rest = text;
    for _ in 0..count {
        read = also(read, datum_in(labels, width, first_operand(rest)));
        rest = other_operands(rest);
    }
    read
}

/// A list of numbers and labels.
#[tactic(auto, unfolding(crate::specs::Statements::statement_of, crate::specs::Statements::said))]
pub fn numbers_line(labels: &Labels, width: DataWidth, text: &[u8]) -> StatementReading
    ensures { result ≡ statement_of labels.now (names.Numbers width) text.now }
{
    let count = how_many(text);
    if count == 0 {
        return Err(SourceFaultKind::BadOperand);
    }
    with_data(labels, width, count as u64, text)
}

/// A number of zero bytes.
#[tactic(auto, unfolding(crate::specs::Statements::statement_of, crate::specs::Statements::said))]
pub fn space_line(text: &[u8]) -> StatementReading
    ensures { result ≡ statement_of [] names.Space text.now }
{
    let number = natural_in(u64::MAX, first_operand(text));
    let size = counted(1, how_many(text), number)?;
    Ok(Statement::Space(size))
}

/// The power of 2 that a text is, 0 to 12.
fn power_in(text: &[u8]) -> Result<Shift, SourceFaultKind>
    ensures { result ≡ natural_in 12 text.now }
{
    let power = natural_in(12, text)?;
    match Shift::new(power as u8) {
        Some(power) => Ok(power),
        None => unreachable!(),
    }
}

/// A power of 2, 0 to 12.
#[tactic(auto, unfolding(crate::specs::Statements::statement_of, crate::specs::Statements::said))]
pub fn align_line(text: &[u8]) -> StatementReading
    ensures { result ≡ statement_of [] names.Align text.now }
{
    let power = counted(1, how_many(text), power_in(first_operand(text)))?;
    Ok(Statement::Align(power))
}

/// A name, to no effect.
#[tactic(auto, unfolding(crate::specs::Statements::statement_of, crate::specs::Statements::said))]
pub fn global_line(text: &[u8]) -> StatementReading
    ensures { result ≡ statement_of [] names.Global text.now }
{
    let read = match name_in(first_operand(text)) {
        Some(_) => Ok(()),
        None => Err(SourceFaultKind::BadOperand),
    };
    counted(1, how_many(text), read)?;
    Ok(Statement::Nothing)
}
