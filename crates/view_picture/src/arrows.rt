//! Waits, wakes and boosts as arrows, and what wakes no task as a hollow mark.

ghost use Rattle.std.specs.Prelude.{◌≡◌, ◌<◌, false, IfOk, length};

use crate::layout::{ARROWS, BAND, LABEL, OUT_OF_BAND, y_of};
use crate::lines::{Place, push_point, words_of};
use crate::room::{Rows, takes_room};
use crate::shapes::{label, polygon, shape};
use evm_model::Wait;
use evm_room::Refused;
use std::alloc::Global;
use text_markup::{Draft, Key, Tag};
use view_timeline::{Deed, Mark, Piece, Shown, say, wait_name};

// A label whose baseline begins at a point, if it stands in the upper row.
#[derive(Clone, Copy)]
struct Caption<'a> {
    class: &'a str,
    x: u32,
    y: u32,
    text: &'a str,
}

// A label in the lower row, or in the upper one, where there is room for it.
fn label_if_room(
    draft: Draft,
    rows: &mut Rows,
    cpu: u8,
    caption: Caption<'_>,
) -> Result<Draft, Refused>
    requires content { draft.in_tag ≡ false }
    requires inside { 0 < length draft.tags }
    ensures { IfOk result (λ new. new ≡ draft) }
{
    let Caption { class, x, y, text } = caption;
    if takes_room(&mut rows.lower, cpu, x, text) {
        return label(draft, class, x, y.saturating_add(LABEL), text);
    }
    if takes_room(&mut rows.upper, cpu, x, text) {
        return label(draft, class, x, y, text);
    }
    Ok(draft)
}

// The short name of what is waited for.
fn push_short(out: &mut String, wait: Wait) -> Result<(), Refused> {
    let name = match wait {
        Wait::Line(_) => "l",
        Wait::Lock(_) | Wait::Reacquire { .. } => "m",
        Wait::Semaphore(_) => "s",
        Wait::Event(_) => "e",
        Wait::Flags(_) => "f",
        Wait::Sleep => "zz",
        Wait::Timer(_) => "n",
    };
    say(out, &[Piece::Text(name)])?;
    match wait_name(wait) {
        (_, None) => Ok(()),
        (_, Some(at)) => say(out, &[Piece::Number(u64::from(at))]),
    }
}

// What stands beside an arrow.
fn push_arrow_name(out: &mut String, mark: &Mark) -> Result<(), Refused> {
    match *mark {
        Mark::Waits { task, wait } => {
            say(out, &[Piece::Number(u64::from(task)), Piece::Text(":")])?;
            push_short(out, wait)
        }
        Mark::Woken { task, .. } => say(out, &[Piece::Number(u64::from(task))]),
        Mark::Rank { task, to, .. } => say(
            out,
            &[
                Piece::Number(u64::from(task)),
                Piece::Text("="),
                Piece::Number(u64::from(to)),
            ],
        ),
        _ => Ok(()),
    }
}

fn arrow_class(mark: &Mark) -> Option<&'static str> {
    match *mark {
        Mark::Waits { .. } => Some("wait"),
        Mark::Woken { .. } => Some("wake"),
        Mark::Rank { from, to, .. } => Some(if from < to { "boost" } else { "fall" }),
        _ => None,
    }
}

// Where in its cell an arrow stands.
fn offset(mark: &Mark) -> u32 {
    match mark {
        Mark::Rank { .. } => 11,
        _ => 5,
    }
}

// Where the label of an arrow begins: beside it, where the arrow comes from another lane.
fn label_x(x: u32, mark: &Mark, actor: Option<u8>, cpu: u8) -> u32 {
    match (mark, actor) {
        (Mark::Waits { .. }, _) => x.saturating_sub(3),
        (_, Some(actor)) if actor != cpu => x.saturating_add(3),
        _ => x.saturating_sub(3),
    }
}

/// Appends the points of the head of an arrow, which ends at `to`.
pub(crate) fn push_head(out: &mut String, x: u32, from: u32, to: u32) -> Result<(), Refused> {
    let back = if from < to {
        to.saturating_sub(5)
    } else {
        to.saturating_add(5)
    };
    push_point(out, x, to)?;
    push_point(out, x.saturating_sub(3), back)?;
    push_point(out, x.saturating_add(3), back)
}

/// An upright arrow: its class, its place, and where it begins and ends.
#[derive(Clone, Copy)]
pub(crate) struct Shaft<'a> {
    pub(crate) class: &'a str,
    pub(crate) x: u32,
    pub(crate) from: u32,
    pub(crate) to: u32,
}

fn arrow(draft: Draft, alloc: Global, shaft: Shaft<'_>, words: &str) -> Result<Draft, Refused>
    requires content { draft.in_tag ≡ false }
    requires inside { 0 < length draft.tags }
    ensures { IfOk result (λ new. new ≡ draft) }
{
    let Shaft { class, x, from, to } = shaft;
    let sides = [(Key::X1, x), (Key::Y1, from), (Key::X2, x), (Key::Y2, to)];
    let draft = shape(draft, Tag::Line, class, &sides, words)?;
    let mut head = String::new(alloc);
    push_head(&mut head, x, from, to)?;
    polygon(draft, class, head.as_str(), words)
}

// Where an arrow begins and ends: a wait leaves its task's row, a wake and a boost come to it; from another processor's lane
// where its event is of another.
fn ends(at: Place<'_>, mark: &Mark, actor: Option<u8>, cpu: u8) -> (u32, u32) {
    let row = y_of(at.top, cpu, OUT_OF_BAND).saturating_add(3);
    let band = y_of(at.top, cpu, BAND);
    if let Mark::Waits { .. } = mark {
        return (row, band);
    }
    match actor {
        Some(actor) if actor != cpu => (y_of(at.top, actor, OUT_OF_BAND).saturating_add(3), row),
        _ => (band, row),
    }
}

// The arrow of a mark about a wait or a rank; no other mark has one.
fn mark_arrow(
    draft: Draft,
    at: Place<'_>,
    shown: &Shown,
    mark: &Mark,
    rows: &mut Rows,
) -> Result<Draft, Refused>
    requires content { draft.in_tag ≡ false }
    requires inside { 0 < length draft.tags }
    ensures { IfOk result (λ new. new ≡ draft) }
{
    let (Some(class), Some(cpu)) = (arrow_class(mark), shown.subject) else {
        return Ok(draft);
    };
    let words = words_of(at, shown)?;
    let x = at.x.saturating_add(offset(mark));
    let (from, to) = ends(at, mark, shown.actor, cpu);
    let shaft = Shaft { class, x, from, to };
    let draft = arrow(draft, at.alloc, shaft, words.as_str())?;
    let mut name = String::new(at.alloc);
    push_arrow_name(&mut name, mark)?;
    let caption = Caption {
        class,
        x: label_x(x, mark, shown.actor, cpu),
        y: y_of(at.top, cpu, ARROWS),
        text: name.as_str(),
    };
    label_if_room(draft, rows, cpu, caption)
}

/// Appends the points of a diamond around a point.
pub(crate) fn push_diamond(out: &mut String, x: u32, y: u32) -> Result<(), Refused> {
    push_point(out, x, y.saturating_sub(5))?;
    push_point(out, x.saturating_add(5), y)?;
    push_point(out, x, y.saturating_add(5))?;
    push_point(out, x.saturating_sub(5), y)
}

// A put, signal or post of an object that woke no task.
fn wasted_sign(
    draft: Draft,
    at: Place<'_>,
    shown: &Shown,
    object: Wait,
    rows: &mut Rows,
) -> Result<Draft, Refused>
    requires content { draft.in_tag ≡ false }
    requires inside { 0 < length draft.tags }
    ensures { IfOk result (λ new. new ≡ draft) }
{
    let Some(cpu) = shown.subject else {
        return Ok(draft);
    };
    let words = words_of(at, shown)?;
    let x = at.x.saturating_add(8);
    let mut points = String::new(at.alloc);
    push_diamond(&mut points, x, y_of(at.top, cpu, BAND).saturating_add(7))?;
    let draft = polygon(draft, "hollow", points.as_str(), words.as_str())?;
    let mut name = String::new(at.alloc);
    push_short(&mut name, object)?;
    let caption = Caption {
        class: "hollow",
        x: at.x.saturating_add(2),
        y: y_of(at.top, cpu, ARROWS),
        text: name.as_str(),
    };
    label_if_room(draft, rows, cpu, caption)
}

/// The sign of a wait, a rank, or of what woke no task; nothing else has one here.
pub(crate) fn arrow_sign(
    draft: Draft,
    at: Place<'_>,
    shown: &Shown,
    rows: &mut Rows,
) -> Result<Draft, Refused>
    requires content { draft.in_tag ≡ false }
    requires inside { 0 < length draft.tags }
    ensures { IfOk result (λ new. new ≡ draft) }
{
    match shown.deed {
        Deed::Mark(mark) => mark_arrow(draft, at, shown, &mark, rows),
        Deed::Wasted(_, object) => wasted_sign(draft, at, shown, object, rows),
    }
}
