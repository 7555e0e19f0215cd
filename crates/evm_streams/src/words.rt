//! The words of a message: text, and numbers between them.

ghost use Rattle.std.specs.Prelude.{◌<◌};
ghost use Rattle.evm_streams.specs.Diagnostic.{WritesWords};

use crate::message::{Message, Numeral};
use crate::number::write_decimal;
use crate::sink::{Sink, WriteFault};
use crate::writes::write_all;

/// Writes some bytes.
pub(crate) fn write_words<E: Sink>(words: &[u8], errors: &mut E) -> Result<(), WriteFault>
    ensures { WritesWords E.takes result errors.old errors.new }
{
    write_all(errors, words)
}

/// A digit's character, lower case from ten on.
pub(crate) fn digit_character(digit: u8) -> u8
    requires { digit < 16 }
{
    if digit < 10 {
        b'0' + digit
    } else {
        b'a' - 10 + digit
    }
}

// Writes a number in lower-case hexadecimal.
fn write_hexadecimal<E: Sink>(number: u64, errors: &mut E) -> Result<(), WriteFault>
    ensures { WritesWords E.takes result errors.old errors.new }
{
    if number < 16 {
        return write_words(&[digit_character(number as u8)], errors);
    }
    write_hexadecimal(number / 16, errors)?;
    write_words(&[digit_character((number % 16) as u8)], errors)
}

// Writes a number.
fn write_number<E: Sink>(number: Numeral, errors: &mut E) -> Result<(), WriteFault>
    ensures { WritesWords E.takes result errors.old errors.new }
{
    match number {
        Numeral::Decimal(number) => write_decimal(number, 19, errors),
        Numeral::Hexadecimal(number) => write_hexadecimal(number, errors),
    }
}

// Writes words and the number behind them.
fn write_counted<E: Sink>(front: &str, number: Numeral, errors: &mut E) -> Result<(), WriteFault>
    ensures { WritesWords E.takes result errors.old errors.new }
{
    write_words(front.as_bytes(), errors)?;
    write_number(number, errors)
}

// Writes words with a number between them.
fn write_with_one<E: Sink>(
    front: &str,
    number: Numeral,
    back: &str,
    errors: &mut E,
) -> Result<(), WriteFault>
    ensures { WritesWords E.takes result errors.old errors.new }
{
    write_counted(front, number, errors)?;
    write_words(back.as_bytes(), errors)
}

/// Writes a message.
pub(crate) fn write_message<E: Sink>(message: Message, errors: &mut E) -> Result<(), WriteFault>
    ensures { WritesWords E.takes result errors.old errors.new }
{
    match message {
        Message::Plain(words) => write_words(words.as_bytes(), errors),
        Message::WithOne(front, number, back) => write_with_one(front, number, back, errors),
        Message::WithTwo(front, first, between, second, back) => {
            write_counted(front, first, errors)?;
            write_with_one(between, second, back, errors)
        }
    }
}
