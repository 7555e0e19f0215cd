//! The sheet that a picture is drawn on.

ghost use Rattle.std.specs.Prelude.{◌≡◌, ◌∷◌, [], false, IfOk};

use crate::shapes::plain;
use crate::style::STYLE;
use evm_room::Refused;
use std::alloc::Global;
use text_markup::{Draft, Key, Tag};
use view_timeline::{Piece, Timeline, say};

/// Which events a timeline shows.
pub(crate) fn heading(alloc: Global, timeline: &Timeline) -> Result<String, Refused> {
    let mut text = String::new(alloc);
    match (timeline.cells.first(), timeline.cells.last()) {
        (Some(first), Some(last)) => say(
            &mut text,
            &[
                Piece::Text("events "),
                Piece::Number(first.first),
                Piece::Text(" to "),
                Piece::Number(last.first.saturating_add(last.count.saturating_sub(1))),
            ],
        )?,
        _ => say(&mut text, &[Piece::Text("no event")])?,
    }
    Ok(text)
}

fn view_box(alloc: Global, width: u32, height: u32) -> Result<String, Refused> {
    let mut text = String::new(alloc);
    let pieces = [
        Piece::Text("0 0 "),
        Piece::Number(u64::from(width)),
        Piece::Text(" "),
        Piece::Number(u64::from(height)),
    ];
    say(&mut text, &pieces)?;
    Ok(text)
}

/// The begin of a picture of this size: its style and its paper.
pub(crate) fn begun(alloc: Global, width: u32, height: u32) -> Result<Draft, Refused>
    ensures { IfOk result (λ draft. draft ≡ record { tags = Tag.Svg ∷ []; in_tag = false; shares = [] }) }
{
    let all = view_box(alloc, width, height)?;
    let draft = Draft::svg(alloc)?
        .attribute(Key::Namespace, "http://www.w3.org/2000/svg")?
        .number(Key::Width, width)?
        .number(Key::Height, height)?
        .attribute(Key::ViewBox, all.as_str())?
        .enter()?;
    let draft = draft.open(Tag::Style)?.enter()?.text(STYLE)?.close()?;
    let sides = [(Key::Width, width), (Key::Height, height)];
    plain(draft, Tag::Rectangle, "paper", &sides)
}
