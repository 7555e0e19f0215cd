//! A box for each cell on the lane of its processor.

ghost use Rattle.std.specs.Prelude.{◌≡◌, ◌<◌, ◌∷◌, [], false, IfOk, length};
ghost use Rattle.view_picture.specs.Boxes.{box_of, lane_boxes, with_boxes};

use crate::layout::x_of;
use crate::shapes::{label, sides, title};
use evm_model::PROCESSOR_LIMIT;
use evm_room::Refused;
use std::alloc::Global;
use text_markup::{Draft, Key, Share, Tag};
use view_timeline::{Cell, Event, Naming, Piece, letter, push_cell, say, share};

fn event_class(cell: &Cell) -> &'static str {
    if cell.items > 1 {
        return "e many";
    }
    match cell.event {
        Event::Step(_) => { if cell.count > 1 { "e run" } else { "e step" } }
        _ => "e out",
    }
}

// What is written in a box: a letter, or how many events there are.
fn push_sign(out: &mut String, cell: &Cell, share: u64) -> Result<(), Refused> {
    if cell.count <= 1 {
        return say(out, &[Piece::Text(letter(&cell.event))]);
    }
    if share < 1_000 {
        return say(out, &[Piece::Number(share)]);
    }
    if share < 100_000 {
        return say(out, &[Piece::Number(share / 1000), Piece::Text("k")]);
    }
    say(out, &[Piece::Text("..")])
}

fn push_share(
    out: &mut String,
    naming: Naming<'_>,
    cell: &Cell,
    lane: usize,
    share: u64,
) -> Result<(), Refused> {
    push_cell(out, cell, naming)?;
    if cell.items <= 1 {
        return Ok(());
    }
    if lane < PROCESSOR_LIMIT {
        return say(
            out,
            &[
                Piece::Text(", "),
                Piece::Number(share),
                Piece::Text(" of them of processor "),
                Piece::Number(lane as u64),
            ],
        );
    }
    say(
        out,
        &[
            Piece::Text(", "),
            Piece::Number(share),
            Piece::Text(" of them of no processor"),
        ],
    )
}

// The rectangle of a box, which stands for the events.
fn rectangle(
    draft: Draft,
    share: Share,
    class: &str,
    at: (u32, u32),
    words: &str,
) -> Result<Draft, Refused>
    requires content { draft.in_tag ≡ false }
    requires inside { 0 < length draft.tags }
    ensures { IfOk result (λ new. new ≡ with_boxes (share ∷ []) draft) }
{
    let (x, y) = at;
    let at = [
        (Key::X, x.saturating_add(1)),
        (Key::Y, y),
        (Key::Width, 14),
        (Key::Height, 13),
    ];
    let draft = draft.open(Tag::Rectangle)?.events(share)?;
    let draft = draft.attribute(Key::Class, class)?;
    let draft = sides(draft, &at)?.enter()?;
    title(draft, words)?.close()
}

/// The lane of the events of a processor, or of the machine: its number, its height, and what its words are made of.
#[derive(Clone, Copy)]
pub(crate) struct EventLane<'a> {
    pub(crate) alloc: Global,
    pub(crate) naming: Naming<'a>,
    pub(crate) number: usize,
    pub(crate) y: u32,
}

fn boxed(draft: Draft, lane: &EventLane<'_>, cell: &Cell, x: u32) -> Result<Draft, Refused>
    requires content { draft.in_tag ≡ false }
    requires inside { 0 < length draft.tags }
    ensures { IfOk result (λ new. new ≡ with_boxes (box_of lane.now.number cell.now) draft) }
{
    let events = share(cell, lane.number);
    if events == 0 {
        return Ok(draft);
    }
    let share = Share {
        lane: lane.number as u64,
        first: cell.first,
        count: cell.count,
        events,
    };
    let mut words = String::new(lane.alloc);
    push_share(&mut words, lane.naming, cell, lane.number, events)?;
    let at = (x, lane.y);
    let draft = rectangle(draft, share, event_class(cell), at, words.as_str())?;
    let mut sign = String::new(lane.alloc);
    push_sign(&mut sign, cell, events)?;
    let (x, y) = (x.saturating_add(8), lane.y.saturating_add(10));
    label(draft, "s", x, y, sign.as_str())
}

/// The boxes of a lane.
pub(crate) fn boxes(draft: Draft, lane: &EventLane<'_>, cells: &[Cell]) -> Result<Draft, Refused>
    requires content { draft.in_tag ≡ false }
    requires inside { 0 < length draft.tags }
    ensures { IfOk result (λ new. new ≡ with_boxes (lane_boxes lane.now.number cells.now) draft) }
{
    let mut draft = draft;
    let mut column = 0usize;
    for cell in cells {
        draft = boxed(draft, lane, cell, x_of(column))?;
        column = column.saturating_add(1);
    }
    Ok(draft)
}
