//! The bytes of a journal's pokes: an entry of a poke has only their number.

ghost use Rattle.std.specs.Prelude.{◌≡◌, ◌++◌, ◌∷◌, ℕ, List, IfOk, OnOk, false};
ghost use Rattle.std.specs.String.{string_bytes};
ghost use Rattle.evm_text.specs.Lines.{text_lines};
ghost use Rattle.evm_text.specs.Reading.{ReadsAs};
ghost use Rattle.text_markup.specs.Text.{comma_if, items_text};
ghost use Rattle.view_page.specs.Pokes.{poke_bytes, poke_items, poke_text};

use evm_room::{Refused, push_text};
use evm_text::{after_word, cut_line, hexadecimal_at};
use text_markup::push_quoted;

// The bytes of a line that is a poke, in hexadecimal; None of another line.
fn poke_bytes(line: &[u8]) -> Option<&[u8]>
    ensures { ReadsAs (λ bytes. bytes.now) result (poke_bytes line.now) }
{
    let rest = after_word(b"poke ", line)?;
    let (_, rest) = hexadecimal_at(rest)?;
    after_word(b" ", rest)
}

// A comma, if an item stands before.
fn push_comma(out: &mut String, later: bool) -> Result<(), Refused>
    ensures { OnOk result (string_bytes out.new ≡ string_bytes out.old ++ comma_if later) }
{
    if later { push_text(out, ",") } else { Ok(()) }
}

// Appends the bytes of a poke.
fn push_bytes(out: &mut String, later: bool, bytes: &[u8]) -> Result<(), Refused>
    ensures { OnOk result (string_bytes out.new ≡ string_bytes out.old ++ poke_text later bytes.now) }
{
    push_comma(out, later)?;
    push_quoted(out, bytes)
}

// Appends the bytes of a line that is a poke. Returns whether an item stands before the next.
fn push_poke(out: &mut String, later: bool, line: &[u8]) -> Result<bool, Refused>
    ensures { IfOk result (λ more. (lines : List (List ℕ)) → string_bytes out.new ++ items_text more (poke_items lines) ≡ string_bytes out.old ++ items_text later (poke_items (line.now ∷ lines))) }
{
    match poke_bytes(line) {
        None => Ok(later),
        Some(bytes) => {
            push_bytes(out, later, bytes)?;
            Ok(true)
        }
    }
}

/// Appends the bytes of each poke of a journal in their order, and the end of their array.
pub(crate) fn push_pokes(out: &mut String, journal: &[u8]) -> Result<(), Refused>
    ensures { OnOk result (string_bytes out.new ≡ string_bytes out.old ++ items_text false (poke_items (text_lines journal.now))) }
{
    let mut rest = journal;
    let mut later = false;
    'lines: while let Some((line, behind)) = cut_line(rest) {
        later = push_poke(out, later, line)?;
        rest = behind;
    }
    push_text(out, "]")
}
