//! Strings in quotes.

ghost use Rattle.std.specs.Prelude.{◌≢◌, ◌<◌, ◌∷◌, []};
ghost use Rattle.json.specs.Print.{escape, escape_byte, quoted};
ghost use Rattle.evm_text.specs.Appending.{Appends};
ghost use Rattle.text_markup.specs.Text.{shown_bytes, shown_byte};

use evm_room::{Refused, grow_text, push_text};

// Appends a printable character that needs no escape.
fn push_plain(out: &mut String, byte: u8) -> Result<(), Refused>
    requires { 31 < byte × byte < 127 × byte ≢ 34 × byte ≢ 92 }
    ensures { Appends (byte ∷ []) out.old out.new result }
{
    grow_text(out, 1)?;
    let Ok(()) = out.push(char::from(byte)) else {
        unreachable!();
    };
    Ok(())
}

// Appends a byte of a string: with a backslash before a quote and a backslash, and `?` for what is not printable.
#[tactic(auto, using(crate::proofs::Bytes::bytes))]
fn push_byte(out: &mut String, byte: u8) -> Result<(), Refused>
    ensures { Appends (escape_byte (shown_byte byte)) out.old out.new result }
{
    match byte {
        b'"' => push_text(out, "\\\""),
        b'\\' => push_text(out, "\\\\"),
        b' '..=b'~' => push_plain(out, byte),
        _ => push_text(out, "?"),
    }
}

fn push_escaped(out: &mut String, content: &[u8]) -> Result<(), Refused>
    ensures { Appends (escape (shown_bytes content.now)) out.old out.new result }
{
    let [first, rest @ ..] = content else {
        return Ok(());
    };
    push_byte(out, *first)?;
    push_escaped(out, rest)
}

/// Appends a string in quotes. A byte that is no printable ASCII character is written as `?`.
pub fn push_quoted(out: &mut String, content: &[u8]) -> Result<(), Refused>
    ensures { Appends (quoted (shown_bytes content.now)) out.old out.new result }
{
    push_text(out, "\"")?;
    push_escaped(out, content)?;
    push_text(out, "\"")
}
