//! XML that is being written.

ghost use Rattle.std.specs.Prelude.{◌≡◌, ◌<◌, ◌∷◌, ◌++◌, [], true, false, IfOk, OnOk, length, drop};
ghost use Rattle.std.specs.String.{string_bytes};
ghost use Rattle.text_markup.specs.Xml.{Attribute, IsElement, attribute_text, close, share_text, start_tag};

use crate::escape::{push_escaped, push_markup};
use crate::names::{Key, Share, Tag};
use evm_room::{Refused, grow, push_text};
use evm_text::push_decimal;
use std::alloc::Global;
use std::marker::Model;

/// XML that is being written: what is closed, and the elements that are open. A call that fails drops it.
#[derive(Debug, Drop)]
pub struct Draft {
    out: Vec<u8>,
    tags: Vec<Tag>,
    in_tag: bool,
    // the events for which elements stand, as they are written
    shares: Vec<Share>,
    // a number's digits, before they are written
    digits: String,
}

impl Model for Draft {
    ghost use Rattle.std.specs.Prelude.{reverse};
    ghost use Rattle.text_markup.specs.Draft as model;
    ghost use Rattle.text_markup.specs.Draft.{IsDraft};

    ghost Value = { model.Draft };

    // what is written is the front of an element, as far as it goes
    ghost invariant = { λ d. ∥ IsDraft d.in_tag (reverse d.tags.items) d.shares.items d.out.items ∥₁ };

    ghost view = { λ d. record { tags = reverse d.tags.items; in_tag = d.in_tag; shares = d.shares.items } };
}

#[tactic(auto, unfolding(crate::specs::Xml::attributes_text), using(crate::proofs::Lemmas::escapes))]
fn push_start(out: &mut Vec<u8>, tag: Tag) -> Result<(), Refused>
    ensures { OnOk result (out.new.items ≡ out.old.items ++ start_tag tag []) }
{
    push_markup(out, b"<")?;
    push_markup(out, tag.text().as_bytes())
}

fn push_attribute(out: &mut Vec<u8>, key: Key, value: &str) -> Result<(), Refused>
    ensures { OnOk result (out.new.items ≡ out.old.items ++ attribute_text (Attribute.Named key value.now)) }
{
    push_markup(out, b" ")?;
    push_markup(out, key.text().as_bytes())?;
    push_markup(out, b"=\"")?;
    push_escaped(out, value)?;
    push_markup(out, b"\"")
}

fn push_close(out: &mut Vec<u8>, tag: Tag) -> Result<(), Refused>
    ensures { OnOk result (out.new.items ≡ out.old.items ++ close tag) }
{
    push_markup(out, b"</")?;
    push_markup(out, tag.text().as_bytes())?;
    push_markup(out, b">")
}

fn push_tag(tags: &mut Vec<Tag>, tag: Tag) -> Result<(), Refused>
    ensures { OnOk result (tags.new.items ≡ tags.old.items ++ tag ∷ []) }
{
    grow(tags, 1)?;
    tags.push_reserved(tag);
    Ok(())
}

fn push_shared(shares: &mut Vec<Share>, share: Share) -> Result<(), Refused>
    ensures { OnOk result (shares.new.items ≡ shares.old.items ++ share ∷ []) }
{
    grow(shares, 1)?;
    shares.push_reserved(share);
    Ok(())
}

// The four numbers of a share.
fn push_share(out: &mut String, share: Share) -> Result<(), Refused>
    ensures { OnOk result (string_bytes out.new ≡ string_bytes out.old ++ share_text share) }
{
    push_decimal(out, share.lane)?;
    push_text(out, " ")?;
    push_decimal(out, share.first)?;
    push_text(out, " ")?;
    push_decimal(out, share.count)?;
    push_text(out, " ")?;
    push_decimal(out, share.events)
}

fn push_events(out: &mut Vec<u8>, digits: &mut String, share: Share) -> Result<(), Refused>
    ensures { OnOk result (out.new.items ≡ out.old.items ++ attribute_text (Attribute.Events share)) }
{
    digits.clear();
    push_share(digits, share)?;
    push_markup(out, b" data-events=\"")?;
    push_markup(out, digits.as_bytes())?;
    push_markup(out, b"\"")
}

impl Draft {
    /// The start tag of an `svg` element, open for its attributes.
    pub fn svg(alloc: Global) -> Result<Draft, Refused>
        ensures { IfOk result (λ draft. draft ≡ record { tags = Tag.Svg ∷ []; in_tag = true; shares = [] }) }
    {
        let mut out = Vec::new(alloc);
        push_start(&mut out, Tag::Svg)?;
        let mut tags = Vec::new(alloc);
        push_tag(&mut tags, Tag::Svg)?;
        Ok(Draft {
            out,
            tags,
            in_tag: true,
            shares: Vec::new(alloc),
            digits: String::new(alloc),
        })
    }

    /// How many bytes are written.
    pub fn len(&self) -> usize {
        self.out.len()
    }

    /// The start tag of an element, open for its attributes.
    pub fn open(self, tag: Tag) -> Result<Draft, Refused>
        requires content { self.in_tag ≡ false }
        requires inside { 0 < length self.tags }
        ensures { IfOk result (λ draft. draft ≡ record { tags = tag ∷ self.tags; in_tag = true; shares = self.shares }) }
    {
        let Draft {
            mut out,
            mut tags,
            in_tag: _,
            shares,
            digits,
        } = self;
        push_start(&mut out, tag)?;
        push_tag(&mut tags, tag)?;
        Ok(Draft {
            out,
            tags,
            in_tag: true,
            shares,
            digits,
        })
    }

    /// An attribute whose value is a text.
    pub fn attribute(self, key: Key, value: &str) -> Result<Draft, Refused>
        requires { self.in_tag ≡ true }
        ensures { IfOk result (λ draft. draft ≡ self) }
    {
        let Draft {
            mut out,
            tags,
            in_tag,
            shares,
            digits,
        } = self;
        push_attribute(&mut out, key, value)?;
        Ok(Draft {
            out,
            tags,
            in_tag,
            shares,
            digits,
        })
    }

    /// An attribute whose value is a number.
    pub fn number(self, key: Key, value: u32) -> Result<Draft, Refused>
        requires { self.in_tag ≡ true }
        ensures { IfOk result (λ draft. draft ≡ self) }
    {
        let Draft {
            mut out,
            tags,
            in_tag,
            shares,
            mut digits,
        } = self;
        digits.clear();
        push_decimal(&mut digits, u64::from(value))?;
        push_attribute(&mut out, key, digits.as_str())?;
        Ok(Draft {
            out,
            tags,
            in_tag,
            shares,
            digits,
        })
    }

    /// An attribute that says for which events the element stands.
    pub fn events(self, share: Share) -> Result<Draft, Refused>
        requires { self.in_tag ≡ true }
        ensures { IfOk result (λ draft. draft ≡ record { tags = self.tags; in_tag = true; shares = self.shares ++ share ∷ [] }) }
    {
        let Draft {
            mut out,
            tags,
            in_tag,
            mut shares,
            mut digits,
        } = self;
        push_events(&mut out, &mut digits, share)?;
        push_shared(&mut shares, share)?;
        Ok(Draft {
            out,
            tags,
            in_tag,
            shares,
            digits,
        })
    }

    /// The end of a start tag: what follows is inside the element.
    pub fn enter(self) -> Result<Draft, Refused>
        requires { self.in_tag ≡ true }
        ensures { IfOk result (λ draft. draft ≡ record self { in_tag = false }) }
    {
        let Draft {
            mut out,
            tags,
            in_tag: _,
            shares,
            digits,
        } = self;
        push_markup(&mut out, b">")?;
        Ok(Draft {
            out,
            tags,
            in_tag: false,
            shares,
            digits,
        })
    }

    /// A text inside the innermost element, escaped.
    pub fn text(self, text: &str) -> Result<Draft, Refused>
        requires content { self.in_tag ≡ false }
        requires inside { 0 < length self.tags }
        ensures { IfOk result (λ draft. draft ≡ self) }
    {
        let Draft {
            mut out,
            tags,
            in_tag,
            shares,
            digits,
        } = self;
        push_escaped(&mut out, text)?;
        Ok(Draft {
            out,
            tags,
            in_tag,
            shares,
            digits,
        })
    }

    /// The end of a start tag behind which nothing is inside: the element is closed.
    pub fn end(self) -> Result<Draft, Refused>
        requires tag { self.in_tag ≡ true }
        requires inside { 1 < length self.tags }
        ensures { IfOk result (λ draft. draft ≡ record { tags = drop 1 self.tags; in_tag = false; shares = self.shares }) }
    {
        let Draft {
            mut out,
            mut tags,
            in_tag: _,
            shares,
            digits,
        } = self;
        push_markup(&mut out, b"/>")?;
        let Some(_tag) = tags.pop() else {
            unreachable!();
        };
        Ok(Draft {
            out,
            tags,
            in_tag: false,
            shares,
            digits,
        })
    }

    /// The end tag of the innermost element, which isn't the outermost.
    pub fn close(self) -> Result<Draft, Refused>
        requires content { self.in_tag ≡ false }
        requires inside { 1 < length self.tags }
        ensures { IfOk result (λ draft. draft ≡ record { tags = drop 1 self.tags; in_tag = false; shares = self.shares }) }
    {
        let Draft {
            mut out,
            mut tags,
            in_tag: _,
            shares,
            digits,
        } = self;
        let Some(tag) = tags.pop() else {
            unreachable!();
        };
        push_close(&mut out, tag)?;
        Ok(Draft {
            out,
            tags,
            in_tag: false,
            shares,
            digits,
        })
    }
}

/// The bytes of a draft in which only the `svg` element is open, and its end tag.
pub fn finished(draft: Draft) -> Result<Vec<u8>, Refused>
    requires content { draft.in_tag ≡ false }
    requires outermost { draft.tags ≡ Tag.Svg ∷ [] }
    ensures { IfOk result (λ bytes. ∥ IsElement Tag.Svg draft.shares bytes.items ∥₁) }
{
    let Draft {
        mut out,
        tags: _,
        in_tag: _,
        shares: _,
        digits: _,
    } = draft;
    push_close(&mut out, Tag::Svg)?;
    Ok(out)
}
