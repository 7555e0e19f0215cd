//! Text in which no character can be taken for markup.

ghost use Rattle.std.specs.Prelude.{◌≡◌, ◌++◌, OnOk};
ghost use Rattle.text_markup.specs.Xml.{escaped_text, escaped_byte, plain_byte};

use evm_room::{Refused, grow};

/// Appends bytes that are markup, as they are.
pub fn push_markup(out: &mut Vec<u8>, bytes: &[u8]) -> Result<(), Refused>
    ensures { OnOk result (out.new.items ≡ out.old.items ++ bytes.now) }
{
    grow(out, bytes.len())?;
    let Ok(()) = out.extend_from_slice(bytes) else {
        unreachable!();
    };
    Ok(())
}

fn push_plain(out: &mut Vec<u8>, byte: u8) -> Result<(), Refused>
    ensures { OnOk result (out.new.items ≡ out.old.items ++ plain_byte byte) }
{
    if byte < 32 {
        push_markup(out, b" ")
    } else {
        push_markup(out, &[byte])
    }
}

fn push_one(out: &mut Vec<u8>, byte: u8) -> Result<(), Refused>
    ensures { OnOk result (out.new.items ≡ out.old.items ++ escaped_byte byte) }
{
    match byte {
        b'&' => push_markup(out, b"&amp;"),
        b'<' => push_markup(out, b"&lt;"),
        b'>' => push_markup(out, b"&gt;"),
        b'"' => push_markup(out, b"&quot;"),
        _ => push_plain(out, byte),
    }
}

/// Appends a text, escaped.
#[tactic(auto, using(crate::proofs::Lemmas::escapes))]
pub fn push_escaped(out: &mut Vec<u8>, text: &str) -> Result<(), Refused>
    ensures { OnOk result (out.new.items ≡ out.old.items ++ escaped_text text.now) }
{
    for byte in text.as_bytes() {
        push_one(out, *byte)?;
    }
    Ok(())
}
