//! Rows of numbers, and texts without `<`.

ghost use Rattle.std.specs.Prelude.{◌≡◌, ◌<◌, ◌≤◌, ◌++◌, ◌∷◌, ◌/◌, ◌%◌, [], false, true, OnOk};
ghost use Rattle.std.specs.String.{string_bytes};
ghost use Rattle.text_markup.specs.Text.{items_text, text};
ghost use Rattle.evm_text.specs.Appending.{Appends};
ghost use Rattle.evm_text.specs.Written.{character, decimal};
ghost use Rattle.view_page.specs.Rows.{row_items, row_json};
ghost use Rattle.view_page.specs.Texts.{safe_byte, safe_text};

use evm_room::{Refused, grow, grow_text, push_text};
use evm_text::push_decimal;

/// Appends numbers to a row.
pub(crate) fn put(row: &mut Vec<u64>, numbers: &[u64]) -> Result<(), Refused>
    ensures { OnOk result (row.new.items ≡ row.old.items ++ numbers.now) }
{
    // A few numbers are sooner pushed than copied.
    grow(row, numbers.len())?;
    for number in numbers {
        row.push_reserved(*number);
    }
    Ok(())
}

// Appends a piece of a row, for which there mostly is room.
#[inline(always)]
fn push_piece(out: &mut String, piece: &str) -> Result<(), Refused>
    ensures { Appends piece.now out.old out.new result }
{
    match out.push_str(piece) {
        Ok(()) => Ok(()),
        // Asked again, the growth tells how much was refused.
        Err(_) => push_text(out, piece),
    }
}

// Appends a digit.
#[inline(always)]
#[tactic(auto, using(evm_text::proofs::Steps::numeral_one))]
fn push_digit(out: &mut String, digit: u64) -> Result<(), Refused>
    requires { digit < 10 }
    ensures { Appends (character digit ∷ []) out.old out.new result }
{
    push_decimal(out, digit)
}

// Appends the two digits of a number.
#[inline(always)]
fn push_digits(out: &mut String, number: u64) -> Result<(), Refused>
    requires { number < 100 }
    ensures { Appends (character (number / 10) ∷ character (number % 10) ∷ []) out.old out.new result }
{
    push_digit(out, number / 10)?;
    push_digit(out, number % 10)
}

// Appends a number, two digits at a time.
#[inline(never)]
#[tactic(auto, using(evm_text::proofs::Steps::numeral_one))]
fn push_long(out: &mut String, number: u64) -> Result<(), Refused>
    ensures { Appends (decimal number) out.old out.new result }
{
    if number < 10 {
        return push_digit(out, number);
    }
    if number < 100 {
        return push_digits(out, number);
    }
    push_long(out, number / 100)?;
    push_digits(out, number % 100)
}

// Appends a number. Most are short.
#[inline(always)]
#[tactic(auto, using(evm_text::proofs::Steps::numeral_one))]
fn push_number(out: &mut String, number: u64) -> Result<(), Refused>
    ensures { Appends (decimal number) out.old out.new result }
{
    if number < 10 {
        push_digit(out, number)
    } else {
        push_long(out, number)
    }
}

// Appends a comma and a number.
#[inline(always)]
fn push_item(out: &mut String, number: u64) -> Result<(), Refused>
    ensures { Appends (44 ∷ decimal number) out.old out.new result }
{
    push_piece(out, ",")?;
    push_number(out, number)
}

// Appends the numbers of a row behind its first, and its end.
fn push_rest(out: &mut String, numbers: &[u64]) -> Result<(), Refused>
    ensures { Appends (items_text true (row_items numbers.now)) out.old out.new result }
{
    let [first, rest @ ..] = numbers else {
        return push_piece(out, "]");
    };
    push_item(out, *first)?;
    push_rest(out, rest)
}

// Appends numbers of a row behind its first, those behind them, and its end.
fn push_both(out: &mut String, numbers: &[u64], more: &[u64]) -> Result<(), Refused>
    ensures { Appends (items_text true (row_items (numbers.now ++ more.now))) out.old out.new result }
{
    let [first, rest @ ..] = numbers else {
        return push_rest(out, more);
    };
    push_item(out, *first)?;
    push_both(out, rest, more)
}

// Appends the numbers of a row, and its end.
fn push_numbers(out: &mut String, numbers: &[u64]) -> Result<(), Refused>
    ensures { Appends (items_text false (row_items numbers.now)) out.old out.new result }
{
    let [first, rest @ ..] = numbers else {
        return push_piece(out, "]");
    };
    push_number(out, *first)?;
    push_rest(out, rest)
}

// Appends the numbers of a row, those behind them, and its end.
fn push_parts(out: &mut String, numbers: &[u64], more: &[u64]) -> Result<(), Refused>
    ensures { Appends (items_text false (row_items (numbers.now ++ more.now))) out.old out.new result }
{
    let [first, rest @ ..] = numbers else {
        return push_numbers(out, more);
    };
    push_number(out, *first)?;
    push_both(out, rest, more)
}

/// Appends a row of numbers as JSON.
pub(crate) fn push_row(out: &mut String, numbers: &[u64]) -> Result<(), Refused>
    ensures { Appends (text (row_json numbers.now)) out.old out.new result }
{
    push_piece(out, "[")?;
    push_numbers(out, numbers)
}

/// Appends a row of numbers, and of more behind them, on a line of its own, behind a comma.
pub(crate) fn push_line(out: &mut String, numbers: &[u64], more: &[u64]) -> Result<(), Refused>
    ensures { Appends (44 ∷ 10 ∷ text (row_json (numbers.now ++ more.now))) out.old out.new result }
{
    push_piece(out, ",\n[")?;
    push_parts(out, numbers, more)
}

// Appends a printable character.
fn push_plain(out: &mut String, byte: u8) -> Result<(), Refused>
    requires { 31 < byte × byte < 127 }
    ensures { Appends (byte ∷ []) out.old out.new result }
{
    grow_text(out, 1)?;
    let Ok(()) = out.push(char::from(byte)) else {
        unreachable!();
    };
    Ok(())
}

// Appends a byte of a header: `<` as JSON escapes it, and `?` for what is not printable.
#[tactic(auto, using(crate::proofs::Safe::bytes))]
fn push_byte(out: &mut String, byte: u8) -> Result<(), Refused>
    ensures { Appends (safe_byte byte) out.old out.new result }
{
    match byte {
        b'<' => push_text(out, "\\u003c"),
        b' '..=b'~' => push_plain(out, byte),
        _ => push_text(out, "?"),
    }
}

/// Appends JSON, in which `<` stands in strings alone, so that no name ends the element that it stands in.
pub(crate) fn push_safe(out: &mut String, content: &[u8]) -> Result<(), Refused>
    ensures { OnOk result (string_bytes out.new ≡ string_bytes out.old ++ safe_text content.now) }
{
    for byte in content {
        push_byte(out, *byte)?;
    }
    Ok(())
}
