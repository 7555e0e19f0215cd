//! Shapes and labels.

ghost use Rattle.std.specs.Prelude.{◌≡◌, ◌<◌, false, true, IfOk, length};

use evm_room::Refused;
use text_markup::{Draft, Key, Tag};

/// A side of a shape, in pixels.
pub(crate) type Side = (Key, u32);

/// Appends numbers as attributes.
pub(crate) fn sides(draft: Draft, sides: &[Side]) -> Result<Draft, Refused>
    requires { draft.in_tag ≡ true }
    ensures { IfOk result (λ new. new ≡ draft) }
{
    let mut draft = draft;
    for (key, value) in sides {
        draft = draft.number(*key, *value)?;
    }
    Ok(draft)
}

/// What is said of an element.
pub(crate) fn title(draft: Draft, text: &str) -> Result<Draft, Refused>
    requires content { draft.in_tag ≡ false }
    requires inside { 0 < length draft.tags }
    ensures { IfOk result (λ new. new ≡ draft) }
{
    draft.open(Tag::Title)?.enter()?.text(text)?.close()
}

/// A shape without words.
pub(crate) fn plain(draft: Draft, tag: Tag, class: &str, at: &[Side]) -> Result<Draft, Refused>
    requires content { draft.in_tag ≡ false }
    requires inside { 0 < length draft.tags }
    ensures { IfOk result (λ new. new ≡ draft) }
{
    let draft = draft.open(tag)?.attribute(Key::Class, class)?;
    sides(draft, at)?.end()
}

/// A shape, and what is said of it.
pub(crate) fn shape(
    draft: Draft,
    tag: Tag,
    class: &str,
    at: &[Side],
    words: &str,
) -> Result<Draft, Refused>
    requires content { draft.in_tag ≡ false }
    requires inside { 0 < length draft.tags }
    ensures { IfOk result (λ new. new ≡ draft) }
{
    let draft = draft.open(tag)?.attribute(Key::Class, class)?;
    let draft = sides(draft, at)?.enter()?;
    title(draft, words)?.close()
}

/// A polygon, by its points, and what is said of it.
pub(crate) fn polygon(
    draft: Draft,
    class: &str,
    points: &str,
    words: &str,
) -> Result<Draft, Refused>
    requires content { draft.in_tag ≡ false }
    requires inside { 0 < length draft.tags }
    ensures { IfOk result (λ new. new ≡ draft) }
{
    let draft = draft
        .open(Tag::Polygon)?
        .attribute(Key::Class, class)?
        .attribute(Key::Points, points)?
        .enter()?;
    title(draft, words)?.close()
}

/// A label, whose baseline begins at a point.
pub(crate) fn label(draft: Draft, class: &str, x: u32, y: u32, text: &str) -> Result<Draft, Refused>
    requires content { draft.in_tag ≡ false }
    requires inside { 0 < length draft.tags }
    ensures { IfOk result (λ new. new ≡ draft) }
{
    draft
        .open(Tag::Text)?
        .attribute(Key::Class, class)?
        .number(Key::X, x)?
        .number(Key::Y, y)?
        .enter()?
        .text(text)?
        .close()
}
