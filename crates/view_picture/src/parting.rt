//! Where two journals part.

ghost use Rattle.std.specs.Prelude.{◌≡◌, ◌<◌, false, IfOk, length};

use crate::layout::{CELL, x_of, y_of};
use crate::shapes::{label, shape};
use evm_room::Refused;
use std::alloc::Global;
use text_markup::{Draft, Key, Tag};
use view_timeline::{PARTING, Piece, STRIP, say};

fn words_at(alloc: Global, event: u64) -> Result<String, Refused> {
    let mut words = String::new(alloc);
    say(
        &mut words,
        &[
            Piece::Text("the journals part at event "),
            Piece::Number(event),
        ],
    )?;
    Ok(words)
}

/// Where two journals part: the column of a strip, and the event.
#[derive(Clone, Copy)]
pub(crate) struct Fork {
    pub(crate) column: usize,
    pub(crate) event: u64,
}

/// A line through the lanes of a strip, where two journals part.
pub(crate) fn parting_sign(
    draft: Draft,
    alloc: Global,
    top: u32,
    cpu_count: u8,
    fork: Fork,
) -> Result<Draft, Refused>
    requires content { draft.in_tag ≡ false }
    requires inside { 0 < length draft.tags }
    ensures { IfOk result (λ new. new ≡ draft) }
{
    let x = x_of(fork.column);
    let bottom = y_of(top, cpu_count, 0);
    let sides = [
        (Key::X1, x),
        (Key::Y1, top.saturating_add(18)),
        (Key::X2, x),
        (Key::Y2, bottom),
    ];
    let words = words_at(alloc, fork.event)?;
    let draft = shape(draft, Tag::Line, "part", &sides, words.as_str())?;
    let left = if fork.column > STRIP / 2 { CELL * 6 } else { 0 };
    label(
        draft,
        "b",
        x.saturating_sub(left),
        bottom.saturating_add(13),
        PARTING,
    )
}
