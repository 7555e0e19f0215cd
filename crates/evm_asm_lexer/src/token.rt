//! The tokens of a line: names, numbers and marks.

ghost use Rattle.std.specs.Prelude.{◌≡◌, ◌≤◌, false, option_copied};
ghost use Rattle.evm_asm_lexer.specs.Text.{first_word, starts_with, is_digit, digit, with_digit, with_digits, digits, size, is_name_or_number, begins_well, bad_token, is_sound};

use crate::text::{first_word, is_digit, is_mark, is_white, is_word_byte};

/// Whether the text begins with a digit.
pub fn starts_with_digit(text: &[u8]) -> bool
    ensures { result ≡ starts_with is_digit text.now }
{
    match text {
        [] => false,
        [b, ..] => is_digit(*b),
    }
}

fn digit(b: u8) -> Option<u64>
    ensures { result ≡ digit b }
{
    if is_digit(b) {
        Some(u64::from(b) - 48)
    } else if 97 <= b && b <= 102 {
        Some(u64::from(b) - 87)
    } else if 65 <= b && b <= 70 {
        Some(u64::from(b) - 55)
    } else {
        None
    }
}

#[tactic(auto, unfolding(crate::specs::Text::with_digit))]
fn with_digit(base: u64, n: u64, b: u8) -> Option<u64>
    ensures { result ≡ with_digit base n b }
{
    let d = digit(b)?;
    if d >= base {
        return None;
    }
    n.checked_mul(base)?.checked_add(d)
}

#[tactic(auto, unfolding(crate::specs::Text::with_digits))]
fn with_digits(base: u64, text: &[u8]) -> Option<u64>
    ensures { result ≡ with_digits base 0 text.now }
{
    let mut number = 0;
    let mut rest = text;
    while let [b, tail @ ..] = rest {
        number = with_digit(base, number, *b)?;
        rest = tail;
    }
    Some(number)
}

#[tactic(auto, unfolding(crate::specs::Text::digits))]
fn digits(base: u64, text: &[u8]) -> Option<u64>
    ensures { result ≡ digits base text.now }
{
    if text.is_empty() {
        return None;
    }
    with_digits(base, text)
}

/// The size of a number: `0x` and hexadecimal digits, or decimal ones; None of 2^64 or above.
#[tactic(auto, unfolding(crate::specs::Text::size))]
pub fn size(text: &[u8]) -> Option<u64>
    ensures { result ≡ size text.now }
{
    match text {
        [b'0', b'x', rest @ ..] => digits(16, rest),
        _ => digits(10, text),
    }
}

// Whether the word at the front is a name or a number. Most words are names, and of those the first byte tells it.
#[tactic(auto, using(crate::proofs::Words::digit_first))]
fn is_name_or_number(text: &[u8]) -> bool
    ensures { result ≡ is_name_or_number (first_word text.now) }
{
    !starts_with_digit(text) || size(first_word(text)).is_some()
}

#[inline(always)]
#[tactic(auto, unfolding(crate::specs::Text::begins_well))]
fn begins_well(inside: bool, text: &[u8]) -> bool
    ensures { result ≡ begins_well inside text.now }
{
    match text {
        [] => true,
        [b, rest @ ..] => {
            if is_word_byte(*b) {
                inside || is_name_or_number(text)
            } else if *b == b'-' {
                starts_with_digit(rest)
            } else {
                is_white(*b) || is_mark(*b)
            }
        }
    }
}

/// Whether the text is made of names, numbers, marks and blanks.
#[tactic(auto, unfolding(crate::specs::Text::is_sound))]
pub fn is_sound(text: &[u8]) -> bool
    ensures { result ≡ is_sound false text.now }
{
    let mut inside = false;
    let mut rest = text;
    while let [b, tail @ ..] = rest {
        if !begins_well(inside, rest) {
            return false;
        }
        inside = is_word_byte(*b);
        rest = tail;
    }
    true
}

/// The text from its first token on that isn't sound, if there is one.
#[tactic(auto, unfolding(crate::specs::Text::bad_token))]
pub fn bad_token(text: &[u8]) -> Option<&[u8]>
    ensures { option_copied result ≡ bad_token false text.now }
{
    let mut inside = false;
    let mut rest = text;
    while let [b, tail @ ..] = rest {
        if !begins_well(inside, rest) {
            return Some(rest);
        }
        inside = is_word_byte(*b);
        rest = tail;
    }
    None
}
