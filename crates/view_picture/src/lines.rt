//! Raises, receives and plays of interrupt lines.

ghost use Rattle.std.specs.Prelude.{◌≡◌, ◌<◌, false, IfOk, length};

use crate::layout::{IN_BAND, OUT_OF_BAND, RAISED, RECEIVED, ROW, y_of};
use crate::shapes::{label, polygon, shape};
use evm_model::Stage;
use evm_room::Refused;
use std::alloc::Global;
use text_markup::{Draft, Key, Tag};
use view_timeline::{Deed, Mark, Naming, Piece, Shown, push_shown, say};

/// Where marks are drawn: the left side of their cell, and the top of their strip; and the names for their words.
#[derive(Clone, Copy)]
pub(crate) struct Place<'a> {
    pub(crate) alloc: Global,
    pub(crate) x: u32,
    pub(crate) top: u32,
    pub(crate) naming: Naming<'a>,
}

/// Appends a point.
pub(crate) fn push_point(out: &mut String, x: u32, y: u32) -> Result<(), Refused> {
    let pieces = [
        Piece::Number(u64::from(x)),
        Piece::Text(","),
        Piece::Number(u64::from(y)),
        Piece::Text(" "),
    ];
    say(out, &pieces)
}

/// The words of a mark.
pub(crate) fn words_of(at: Place<'_>, shown: &Shown) -> Result<String, Refused> {
    let mut words = String::new(at.alloc);
    push_shown(&mut words, shown, at.naming)?;
    Ok(words)
}

fn line_label(draft: Draft, alloc: Global, line: u8, x: u32, y: u32) -> Result<Draft, Refused>
    requires content { draft.in_tag ≡ false }
    requires inside { 0 < length draft.tags }
    ensures { IfOk result (λ new. new ≡ draft) }
{
    let mut name = String::new(alloc);
    say(&mut name, &[Piece::Number(u64::from(line))])?;
    label(draft, "l", x, y, name.as_str())
}

// A triangle that points up, for a raise.
fn raise(draft: Draft, at: Place<'_>, cpu: u8, line: u8, words: &str) -> Result<Draft, Refused>
    requires content { draft.in_tag ≡ false }
    requires inside { 0 < length draft.tags }
    ensures { IfOk result (λ new. new ≡ draft) }
{
    let y = y_of(at.top, cpu, RAISED);
    let mut points = String::new(at.alloc);
    push_point(&mut points, at.x.saturating_add(1), y.saturating_add(12))?;
    push_point(&mut points, at.x.saturating_add(5), y.saturating_add(4))?;
    push_point(&mut points, at.x.saturating_add(8), y.saturating_add(12))?;
    let draft = polygon(draft, "raise", points.as_str(), words)?;
    line_label(
        draft,
        at.alloc,
        line,
        at.x.saturating_add(10),
        y.saturating_add(12),
    )
}

// A ring, for a receive.
fn receive(draft: Draft, at: Place<'_>, cpu: u8, line: u8, words: &str) -> Result<Draft, Refused>
    requires content { draft.in_tag ≡ false }
    requires inside { 0 < length draft.tags }
    ensures { IfOk result (λ new. new ≡ draft) }
{
    let y = y_of(at.top, cpu, RECEIVED);
    let sides = [
        (Key::CenterX, at.x.saturating_add(5)),
        (Key::CenterY, y.saturating_add(8)),
        (Key::Radius, 4),
    ];
    let draft = shape(draft, Tag::Circle, "receive", &sides, words)?;
    line_label(
        draft,
        at.alloc,
        line,
        at.x.saturating_add(10),
        y.saturating_add(12),
    )
}

// A disc on the row of the stage, for a play.
fn play(draft: Draft, at: Place<'_>, cpu: u8, stage: Stage, words: &str) -> Result<Draft, Refused>
    requires content { draft.in_tag ≡ false }
    requires inside { 0 < length draft.tags }
    ensures { IfOk result (λ new. new ≡ draft) }
{
    let part = match stage {
        Stage::OutOfBand => OUT_OF_BAND,
        Stage::InBand => IN_BAND,
    };
    let y = y_of(at.top, cpu, part).saturating_add(ROW);
    let sides = [
        (Key::CenterX, at.x.saturating_add(12)),
        (Key::CenterY, y),
        (Key::Radius, 3),
    ];
    shape(draft, Tag::Circle, "play", &sides, words)
}

/// The sign of a mark about a line; no other mark has one here.
pub(crate) fn line_sign(draft: Draft, at: Place<'_>, shown: &Shown) -> Result<Draft, Refused>
    requires content { draft.in_tag ≡ false }
    requires inside { 0 < length draft.tags }
    ensures { IfOk result (λ new. new ≡ draft) }
{
    let Deed::Mark(mark) = shown.deed else {
        return Ok(draft);
    };
    let words = words_of(at, shown)?;
    match mark {
        Mark::Raised { cpu, line, .. } => raise(draft, at, cpu, line, words.as_str()),
        Mark::Received { cpu, line, .. } => receive(draft, at, cpu, line, words.as_str()),
        Mark::Played { cpu, stage, .. } => play(draft, at, cpu, stage, words.as_str()),
        _ => Ok(draft),
    }
}
