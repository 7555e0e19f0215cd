//! Words and lines as they are quoted: their first bytes, with bytes that are not printable escaped.

ghost use Rattle.evm_streams.specs.Diagnostic.{WritesWords};

use crate::message::Message;
use crate::printable::is_printable;
use crate::sink::{Sink, WriteFault};
use crate::words::{digit_character, write_message, write_words};

// How many bytes of a word or a line are quoted.
const EXCERPT_LIMIT: usize = 60;

// The bytes that are quoted of a word or a line.
fn excerpt(word: &[u8]) -> &[u8] {
    if EXCERPT_LIMIT < word.len() {
        &word[..EXCERPT_LIMIT]
    } else {
        word
    }
}

// Writes a byte as it is, or escaped if it is not printable.
fn write_byte<E: Sink>(byte: u8, errors: &mut E) -> Result<(), WriteFault>
    ensures { WritesWords E.takes result errors.old errors.new }
{
    if is_printable(byte) {
        write_words(&[byte], errors)
    } else if byte == b'\r' {
        write_words(b"\\r", errors)
    } else if byte == b'\t' {
        write_words(b"\\t", errors)
    } else {
        let digits = [digit_character(byte / 16), digit_character(byte % 16)];
        write_words(&[b'\\', b'x', digits[0], digits[1]], errors)
    }
}

// Writes bytes, with those that are not printable escaped.
fn write_escaped<E: Sink>(bytes: &[u8], errors: &mut E) -> Result<(), WriteFault>
    ensures { WritesWords E.takes result errors.old errors.new }
{
    let [first, rest @ ..] = bytes else {
        return Ok(());
    };
    write_byte(*first, errors)?;
    write_escaped(rest, errors)
}

// Writes a message and the words behind it.
fn write_opened<E: Sink>(message: Message, between: &str, errors: &mut E) -> Result<(), WriteFault>
    ensures { WritesWords E.takes result errors.old errors.new }
{
    write_message(message, errors)?;
    write_words(between.as_bytes(), errors)
}

// Writes a quoted word and its closing mark.
fn write_quote<E: Sink>(word: &[u8], errors: &mut E) -> Result<(), WriteFault>
    ensures { WritesWords E.takes result errors.old errors.new }
{
    write_escaped(excerpt(word), errors)?;
    write_words(b"\"", errors)
}

/// Writes a message that quotes a word, after the text between them.
pub(crate) fn write_quoting<E: Sink>(
    message: Message,
    between: &str,
    word: &[u8],
    errors: &mut E,
) -> Result<(), WriteFault>
    ensures { WritesWords E.takes result errors.old errors.new }
{
    write_opened(message, between, errors)?;
    write_quote(word, errors)
}
