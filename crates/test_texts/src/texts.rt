//! Numbers, bytes and lines as text, JSON and XML.

use crate::call::{Call, decimal, given, sides};
use crate::writing::{push, push_quoted, push_some_decimal};
use evm_room::Refused;
use evm_text::{
    after_word, cut_ended, cut_line, decimal_at, hexadecimal_at, pairs_at, push_decimal,
    push_hexadecimal, push_hexadecimal_padded, push_pairs,
};
use std::alloc::Global;
use std::io::{self, ErrorKind};
use text_markup::{Draft, Key, Share, Tag, finished};

/// The decimal number at the front.
pub(crate) fn decimal_front(call: &Call<'_>, out: &mut String) -> io::Result<()> {
    push_some_decimal(out, decimal_at(call.argument).map(|read| read.0))
}

/// The hexadecimal number at the front, in decimal.
pub(crate) fn hexadecimal_front(call: &Call<'_>, out: &mut String) -> io::Result<()> {
    push_some_decimal(out, hexadecimal_at(call.argument).map(|read| read.0))
}

/// How many pairs of digits are at the front, their bytes, and what follows them.
pub(crate) fn pairs_front(call: &Call<'_>, out: &mut String) -> io::Result<()> {
    let Some((bytes, rest)) = pairs_at(call.argument) else {
        return push(out, "none");
    };
    let count = bytes.len();
    write!(out, "{count}")?;
    for byte in bytes.as_slice() {
        write!(out, " {byte}")?;
    }
    push(out, " ")?;
    push_quoted(out, rest)
}

/// What follows the word before the bar, in the text behind it.
pub(crate) fn behind(call: &Call<'_>, out: &mut String) -> io::Result<()> {
    let (word, text) = call.halves()?;
    match after_word(word.as_bytes(), text.as_bytes()) {
        Some(rest) => push_quoted(out, rest),
        None => push(out, "none"),
    }
}

/// A decimal number in decimal, in hexadecimal, and in this many hexadecimal digits.
pub(crate) fn number(call: &Call<'_>, out: &mut String) -> io::Result<()> {
    let (number, digits) = sides(' ', call.text()?)?;
    let number = decimal(number)?;
    given(push_decimal(out, number))?;
    push(out, " ")?;
    given(push_hexadecimal(out, number))?;
    push(out, " ")?;
    let Ok(digits) = u8::try_from(decimal(digits)?) else {
        return Err(ErrorKind::InvalidInput.into());
    };
    if digits > 16 {
        return Err(ErrorKind::InvalidInput.into());
    }
    given(push_hexadecimal_padded(out, digits, number))
}

/// Bytes as pairs of digits.
pub(crate) fn pairs(call: &Call<'_>, out: &mut String) -> io::Result<()> {
    given(push_pairs(out, call.argument))
}

// Lines, each between quotes, and what follows the last.
fn push_cut(out: &mut String, cut: Option<(&[u8], &[u8])>) -> io::Result<()> {
    let Some((line, rest)) = cut else {
        return push(out, "none");
    };
    push_quoted(out, line)?;
    push(out, " ")?;
    push_quoted(out, rest)
}

/// The first line, and what follows it.
pub(crate) fn first_line(call: &Call<'_>, out: &mut String) -> io::Result<()> {
    push_cut(out, cut_line(call.argument))
}

/// The first line that has its newline, and what follows it.
pub(crate) fn ended_line(call: &Call<'_>, out: &mut String) -> io::Result<()> {
    push_cut(out, cut_ended(call.argument))
}

/// A string of JSON.
pub(crate) fn json(call: &Call<'_>, out: &mut String) -> io::Result<()> {
    given(text_markup::push_quoted(out, call.argument))
}

// A drawing of one text of a class, and of a circle that stands for events.
fn drawing(alloc: Global, class: &str, text: &str) -> Result<Vec<u8>, Refused> {
    let draft = Draft::svg(alloc)?.number(Key::Width, 4_294_967_295)?;
    let draft = draft
        .enter()?
        .open(Tag::Text)?
        .attribute(Key::Class, class)?;
    let draft = draft.enter()?.text(text)?.close()?;
    let share = Share {
        lane: 8,
        first: 120,
        count: 3,
        events: 2,
    };
    finished(
        draft
            .open(Tag::Circle)?
            .number(Key::Radius, 0)?
            .events(share)?
            .end()?,
    )
}

/// A drawing of a text; its class is before the bar.
pub(crate) fn xml(call: &Call<'_>, out: &mut String) -> io::Result<()> {
    let (class, text) = call.halves()?;
    let bytes = given(drawing(call.alloc, class, text))?;
    push_quoted(out, bytes.as_slice())
}
