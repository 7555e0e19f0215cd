//! What the signs of a picture mean.

ghost use Rattle.std.specs.Prelude.{◌≡◌, ◌<◌, false, IfOk, length};

use crate::arrows::{Shaft, push_diamond, push_head};
use crate::flags::push_flag;
use crate::lines::push_point;
use crate::shapes::{label, plain};
use evm_room::Refused;
use std::alloc::Global;
use text_markup::{Draft, Key, Tag};

fn disc(draft: Draft, class: &str, x: u32, y: u32) -> Result<Draft, Refused>
    requires content { draft.in_tag ≡ false }
    requires inside { 0 < length draft.tags }
    ensures { IfOk result (λ new. new ≡ draft) }
{
    let sides = [
        (Key::CenterX, x.saturating_add(5)),
        (Key::CenterY, y.saturating_sub(4)),
        (Key::Radius, 4),
    ];
    plain(draft, Tag::Circle, class, &sides)
}

fn block(draft: Draft, class: &str, x: u32, y: u32) -> Result<Draft, Refused>
    requires content { draft.in_tag ≡ false }
    requires inside { 0 < length draft.tags }
    ensures { IfOk result (λ new. new ≡ draft) }
{
    let sides = [
        (Key::X, x),
        (Key::Y, y.saturating_sub(10)),
        (Key::Width, 14),
        (Key::Height, 12),
    ];
    plain(draft, Tag::Rectangle, class, &sides)
}

fn points_of(draft: Draft, class: &str, points: &str) -> Result<Draft, Refused>
    requires content { draft.in_tag ≡ false }
    requires inside { 0 < length draft.tags }
    ensures { IfOk result (λ new. new ≡ draft) }
{
    draft
        .open(Tag::Polygon)?
        .attribute(Key::Class, class)?
        .attribute(Key::Points, points)?
        .end()
}

fn triangle(draft: Draft, alloc: Global, class: &str, x: u32, y: u32) -> Result<Draft, Refused>
    requires content { draft.in_tag ≡ false }
    requires inside { 0 < length draft.tags }
    ensures { IfOk result (λ new. new ≡ draft) }
{
    let mut points = String::new(alloc);
    push_point(&mut points, x.saturating_add(1), y)?;
    push_point(&mut points, x.saturating_add(5), y.saturating_sub(8))?;
    push_point(&mut points, x.saturating_add(9), y)?;
    points_of(draft, class, points.as_str())
}

// An arrow that ends above, or below.
fn arrow(draft: Draft, alloc: Global, shaft: Shaft<'_>) -> Result<Draft, Refused>
    requires content { draft.in_tag ≡ false }
    requires inside { 0 < length draft.tags }
    ensures { IfOk result (λ new. new ≡ draft) }
{
    let Shaft { class, x, from, to } = shaft;
    let sides = [(Key::X1, x), (Key::Y1, from), (Key::X2, x), (Key::Y2, to)];
    let draft = plain(draft, Tag::Line, class, &sides)?;
    let mut points = String::new(alloc);
    push_head(&mut points, x, from, to)?;
    points_of(draft, class, points.as_str())
}

fn diamond(draft: Draft, alloc: Global, class: &str, x: u32, y: u32) -> Result<Draft, Refused>
    requires content { draft.in_tag ≡ false }
    requires inside { 0 < length draft.tags }
    ensures { IfOk result (λ new. new ≡ draft) }
{
    let mut points = String::new(alloc);
    push_diamond(&mut points, x.saturating_add(6), y.saturating_sub(4))?;
    points_of(draft, class, points.as_str())
}

fn flag(draft: Draft, alloc: Global, class: &str, x: u32, y: u32) -> Result<Draft, Refused>
    requires content { draft.in_tag ≡ false }
    requires inside { 0 < length draft.tags }
    ensures { IfOk result (λ new. new ≡ draft) }
{
    let mut points = String::new(alloc);
    push_flag(&mut points, x.saturating_add(3), y)?;
    points_of(draft, class, points.as_str())
}

// What a sign looks like.
#[derive(Clone, Copy)]
enum Look {
    Block,
    Disc,
    Triangle,
    Up,
    Down,
    Flag,
    Diamond,
}

#[derive(Clone, Copy)]
struct Sign {
    look: Look,
    class: &'static str,
    words: &'static str,
}

// The arrow of a sign.
fn upright(sign: &Sign, x: u32, from: u32, to: u32) -> Shaft<'static> {
    Shaft {
        class: sign.class,
        x: x.saturating_add(6),
        from,
        to,
    }
}

fn draw_sign(draft: Draft, alloc: Global, sign: &Sign, x: u32, y: u32) -> Result<Draft, Refused>
    requires content { draft.in_tag ≡ false }
    requires inside { 0 < length draft.tags }
    ensures { IfOk result (λ new. new ≡ draft) }
{
    let (above, below) = (y.saturating_sub(10), y.saturating_add(2));
    let draft = match sign.look {
        Look::Block => block(draft, sign.class, x, y)?,
        Look::Disc => disc(draft, sign.class, x, y)?,
        Look::Triangle => triangle(draft, alloc, sign.class, x, y)?,
        Look::Up => arrow(draft, alloc, upright(sign, x, below, above))?,
        Look::Down => arrow(draft, alloc, upright(sign, x, above, below))?,
        Look::Flag => flag(draft, alloc, sign.class, x, y)?,
        Look::Diamond => diamond(draft, alloc, sign.class, x, y)?,
    };
    label(draft, "d", x.saturating_add(20), y, sign.words)
}

const SIGNS: [Sign; 16] = [
    Sign {
        look: Look::Block,
        class: "t0",
        words: "a task runs",
    },
    Sign {
        look: Look::Block,
        class: "stall",
        words: "the stage is stalled",
    },
    Sign {
        look: Look::Triangle,
        class: "raise",
        words: "a line is raised",
    },
    Sign {
        look: Look::Disc,
        class: "receive",
        words: "a line is received",
    },
    Sign {
        look: Look::Disc,
        class: "play",
        words: "a line is played",
    },
    Sign {
        look: Look::Up,
        class: "wait",
        words: "task:object, waits",
    },
    Sign {
        look: Look::Down,
        class: "wake",
        words: "this task wakes",
    },
    Sign {
        look: Look::Down,
        class: "boost",
        words: "task=rank, boosted",
    },
    Sign {
        look: Look::Down,
        class: "fall",
        words: "task=rank, falls",
    },
    Sign {
        look: Look::Flag,
        class: "flag",
        words: "new end moves oob in",
    },
    Sign {
        look: Look::Flag,
        class: "alarm",
        words: "deadline, notice, fault",
    },
    Sign {
        look: Look::Diamond,
        class: "hollow",
        words: "a put that wakes no task",
    },
    Sign {
        look: Look::Block,
        class: "e step",
        words: "a step that changes more",
    },
    Sign {
        look: Look::Block,
        class: "e",
        words: "steps on registers, RAM",
    },
    Sign {
        look: Look::Block,
        class: "e out",
        words: "an event from outside",
    },
    Sign {
        look: Look::Block,
        class: "e many",
        words: "several events joined",
    },
];

/// The legend, from a height on.
pub(crate) fn legend(draft: Draft, alloc: Global, top: u32) -> Result<Draft, Refused>
    requires content { draft.in_tag ≡ false }
    requires inside { 0 < length draft.tags }
    ensures { IfOk result (λ new. new ≡ draft) }
{
    let mut draft = draft;
    let mut x = 16u32;
    let mut y = top.saturating_add(14);
    for one in &SIGNS {
        draft = draw_sign(draft, alloc, one, x, y)?;
        x = x.saturating_add(176);
        if x > 600 {
            x = 16;
            y = y.saturating_add(16);
        }
    }
    Ok(draft)
}
