//! Texts made of words and numbers.

use evm_room::{Refused, push_text};
use evm_text::{push_decimal, push_hexadecimal};

/// A part of a text.
#[derive(Clone, Copy)]
pub enum Piece<'a> {
    Text(&'a str),
    Number(u64),
    /// In base 16.
    Address(u64),
}

/// Appends the parts of a text.
pub fn say(out: &mut String, pieces: &[Piece<'_>]) -> Result<(), Refused> {
    for piece in pieces {
        match piece {
            Piece::Text(text) => push_text(out, text)?,
            Piece::Number(n) => push_decimal(out, *n)?,
            Piece::Address(n) => push_hexadecimal(out, *n)?,
        }
    }
    Ok(())
}
