//! What an operand says: the text between two commas, in the place of a register, a number, an address
//! or a label.

ghost use Rattle.std.specs.Prelude.{◌≡◌, ◌≤◌, ◌==◌, option_copied, ℤ, IfOk};
ghost use Rattle.evm_asm_lexer.specs.Characters.{minus};
ghost use Rattle.evm_asm_lexer.specs.Text.{starts_with, is_name_start};
ghost use Rattle.evm_asm_parser.specs.Operands.{is_blank_text, first_operand, other_operands, how_many, counted, name_in, register_in, label_in, size_in, number_in, integer, integer_in, immediate_in, offset_in, base_in, address_in, full_address_in, natural, natural_in, wrapped};

use crate::labels::Labels;
use crate::spot::Spot;
use evm_asm_lexer::{
    SourceFaultKind, after, before, both, cut_word, has_byte, is_name_start, least, register_named,
    size, skip_blanks, starts_with_digit,
};
use evm_isa::Register;

/// A number as it is written: its size, and whether a `-` stands before it.
#[derive(Clone, Copy, Debug, PartialEq, Eq)]
pub struct Number {
    pub negative: bool,
    pub size: u64,
}

/// Whether a text has nothing but blanks.
pub fn is_blank_text(text: &[u8]) -> bool
    ensures { result ≡ is_blank_text text.now }
{
    skip_blanks(text).is_empty()
}

/// The first operand: the text before the first `,`.
pub fn first_operand(text: &[u8]) -> &[u8]
    ensures { result.now ≡ first_operand text.now }
{
    before(b',', text)
}

/// The operands behind the first.
pub fn other_operands(text: &[u8]) -> &[u8]
    ensures { result.now ≡ other_operands text.now }
{
    after(b',', text)
}

/// The second operand; nothing where there is none.
pub fn second_operand(text: &[u8]) -> &[u8]
    ensures { result.now ≡ first_operand (other_operands text.now) }
{
    first_operand(other_operands(text))
}

/// The third operand; nothing where there is none.
pub fn third_operand(text: &[u8]) -> &[u8]
    ensures { result.now ≡ first_operand (other_operands (other_operands text.now)) }
{
    second_operand(other_operands(text))
}

/// How many operands a text has.
#[tactic(auto, unfolding(crate::specs::Operands::how_many))]
pub fn how_many(text: &[u8]) -> usize
    ensures { result ≡ how_many text.now }
{
    if is_blank_text(text) {
        0
    } else {
        text.iter().filter(|b| **b == b',').count() + 1
    }
}

/// What was read of `n` operands, if there are `n`.
#[tactic(auto, unfolding(crate::specs::Operands::counted))]
pub fn counted<A: Drop>(
    n: usize,
    count: usize,
    read: Result<A, SourceFaultKind>,
) -> Result<A, SourceFaultKind>
    ensures { result ≡ counted n count read }
{
    match read {
        Ok(a) => {
            if count == n {
                Ok(a)
            } else {
                Err(SourceFaultKind::BadOperand)
            }
        }
        Err(e) => {
            if count == n {
                Err(e)
            } else {
                Err(least(e, SourceFaultKind::BadOperand))
            }
        }
    }
}

/// Whether a text begins with a name.
pub fn starts_with_name(text: &[u8]) -> bool
    ensures { result ≡ starts_with is_name_start text.now }
{
    match text {
        [] => false,
        [b, ..] => is_name_start(*b),
    }
}

fn starts_with_minus(text: &[u8]) -> bool
    ensures { result ≡ starts_with (λ b. b == minus) text.now }
{
    match text {
        [] => false,
        [b, ..] => *b == b'-',
    }
}

/// The name that a text is, with blanks around it.
#[tactic(auto, unfolding(crate::specs::Operands::name_in))]
pub fn name_in(text: &[u8]) -> Option<&[u8]>
    ensures { option_copied result ≡ name_in text.now }
{
    let text = skip_blanks(text);
    if !starts_with_name(text) {
        return None;
    }
    let (name, behind) = cut_word(text);
    if is_blank_text(behind) {
        Some(name)
    } else {
        None
    }
}

/// The register that a text names.
#[tactic(auto, unfolding(crate::specs::Operands::register_in))]
pub fn register_in(text: &[u8]) -> Result<Register, SourceFaultKind>
    ensures { result ≡ register_in text.now }
{
    match name_in(text) {
        Some(name) => register_named(name).ok_or(SourceFaultKind::UnknownName),
        None => Err(SourceFaultKind::BadOperand),
    }
}

/// Where the label is that a text names, if it is anywhere.
#[tactic(auto, unfolding(crate::specs::Operands::label_in))]
pub fn label_in(labels: &Labels, text: &[u8]) -> Result<Option<Spot>, SourceFaultKind>
    ensures { result ≡ label_in labels.now text.now }
{
    match name_in(text) {
        Some(name) => Ok(labels.find(name)),
        None => Err(SourceFaultKind::BadOperand),
    }
}

#[tactic(auto, unfolding(crate::specs::Operands::size_in))]
fn size_in(text: &[u8]) -> Option<u64>
    ensures { result ≡ size_in text.now }
{
    if !starts_with_digit(text) {
        return None;
    }
    let (digits, behind) = cut_word(text);
    if is_blank_text(behind) {
        size(digits)
    } else {
        None
    }
}

/// The number that a text is.
#[tactic(auto, unfolding(crate::specs::Operands::number_in))]
pub fn number_in(text: &[u8]) -> Option<Number>
    ensures { result ≡ number_in text.now }
{
    let text = skip_blanks(text);
    match text {
        [b'-', rest @ ..] => {
            let size = size_in(rest)?;
            Some(Number {
                negative: true,
                size,
            })
        }
        _ => {
            let size = size_in(text)?;
            Some(Number {
                negative: false,
                size,
            })
        }
    }
}

#[tactic(auto, unfolding(crate::specs::Operands::integer))]
fn integer(below: u64, above: u64, number: Number) -> Result<i32, SourceFaultKind>
    requires low { below ≤ 2147483648 }
    requires high { above ≤ 2147483647 }
    ensures { result ≡ integer below above number }
{
    if number.negative {
        if number.size <= below {
            Ok(-(number.size as i64) as i32)
        } else {
            Err(SourceFaultKind::RangeOfImmediate)
        }
    } else if number.size <= above {
        Ok(number.size as i32)
    } else {
        Err(SourceFaultKind::RangeOfImmediate)
    }
}

/// The number that a text is, from `-below` to `above`.
#[tactic(auto, unfolding(crate::specs::Operands::integer_in))]
pub fn integer_in(below: u64, above: u64, text: &[u8]) -> Result<i32, SourceFaultKind>
    requires low { below ≤ 2147483648 }
    requires high { above ≤ 2147483647 }
    ensures { result ≡ integer_in below above text.now }
{
    match number_in(text) {
        Some(number) => integer(below, above, number),
        None => Err(SourceFaultKind::BadOperand),
    }
}

/// The immediate that a text is, from -2048 to 2047.
#[tactic(auto, unfolding(crate::specs::Operands::immediate_in))]
pub fn immediate_in(text: &[u8]) -> Result<i32, SourceFaultKind>
    ensures { result ≡ immediate_in text.now }
{
    integer_in(2048, 2047, text)
}

#[tactic(auto, unfolding(crate::specs::Operands::offset_in))]
fn offset_in(text: &[u8]) -> Result<i32, SourceFaultKind>
    ensures { result ≡ offset_in text.now }
{
    if is_blank_text(text) {
        Ok(0)
    } else {
        immediate_in(text)
    }
}

#[tactic(auto, unfolding(crate::specs::Operands::base_in))]
fn base_in(text: &[u8]) -> Result<Register, SourceFaultKind>
    ensures { result ≡ base_in text.now }
{
    if has_byte(b')', text) && is_blank_text(after(b')', text)) {
        register_in(before(b')', text))
    } else {
        Err(SourceFaultKind::BadOperand)
    }
}

/// An offset, or nothing, and a register in parentheses.
#[tactic(auto, unfolding(crate::specs::Operands::address_in))]
pub fn address_in(text: &[u8]) -> Result<(i32, Register), SourceFaultKind>
    ensures { result ≡ address_in text.now }
{
    if has_byte(b'(', text) {
        both(offset_in(before(b'(', text)), base_in(after(b'(', text)))
    } else {
        Err(SourceFaultKind::BadOperand)
    }
}

/// An offset, and a register in parentheses.
#[tactic(auto, unfolding(crate::specs::Operands::full_address_in))]
pub fn full_address_in(text: &[u8]) -> Result<(i32, Register), SourceFaultKind>
    ensures { result ≡ full_address_in text.now }
{
    if has_byte(b'(', text) {
        both(immediate_in(before(b'(', text)), base_in(after(b'(', text)))
    } else {
        Err(SourceFaultKind::BadOperand)
    }
}

#[tactic(auto, unfolding(crate::specs::Operands::natural))]
fn natural(above: u64, number: Number) -> Result<u64, SourceFaultKind>
    ensures value { result ≡ natural above number }
    ensures in_range { IfOk result (λ n. n ≤ above) }
{
    if number.negative {
        if number.size == 0 {
            Ok(0)
        } else {
            Err(SourceFaultKind::RangeOfImmediate)
        }
    } else if number.size <= above {
        Ok(number.size)
    } else {
        Err(SourceFaultKind::RangeOfImmediate)
    }
}

/// The number that a text is, from 0 to `above`.
#[tactic(auto, unfolding(crate::specs::Operands::natural_in))]
pub fn natural_in(above: u64, text: &[u8]) -> Result<u64, SourceFaultKind>
    ensures value { result ≡ natural_in above text.now }
    ensures in_range { IfOk result (λ n. n ≤ above) }
{
    match number_in(text) {
        Some(number) => natural(above, number),
        None => Err(SourceFaultKind::BadOperand),
    }
}

/// A number from `-below` to `above`, modulo 2^64.
#[tactic(auto, unfolding(crate::specs::Operands::wrapped))]
pub fn wrapped(below: u64, above: u64, number: Number) -> Result<u64, SourceFaultKind>
    ensures { result ≡ wrapped below above number }
{
    if number.negative {
        if number.size <= below {
            Ok(number.size.wrapping_neg())
        } else {
            Err(SourceFaultKind::RangeOfImmediate)
        }
    } else if number.size <= above {
        Ok(number.size)
    } else {
        Err(SourceFaultKind::RangeOfImmediate)
    }
}
