//! The names of elements and attributes (SVG 1.1).

ghost use Rattle.std.specs.Prelude.{◌≡◌};
ghost use Rattle.text_markup.specs.Xml.{key_text, tag_text};

/// The events for which an element stands.
#[derive(Clone, Copy, Debug, PartialEq, Eq)]
pub struct Share {
    /// The lane on which it is drawn.
    pub lane: u64,
    /// The first of neighbouring events.
    pub first: u64,
    /// How many these are.
    pub count: u64,
    /// How many of them are of the lane.
    pub events: u64,
}

/// An element.
#[derive(Clone, Copy, Debug, PartialEq, Eq)]
pub enum Tag {
    Svg,
    Style,
    Title,
    Group,
    Rectangle,
    Line,
    Circle,
    Polygon,
    Text,
}

impl Tag {
    /// Its name.
    pub fn text(self) -> &'static str
        ensures { result.now ≡ tag_text self }
    {
        match self {
            Tag::Svg => "svg",
            Tag::Style => "style",
            Tag::Title => "title",
            Tag::Group => "g",
            Tag::Rectangle => "rect",
            Tag::Line => "line",
            Tag::Circle => "circle",
            Tag::Polygon => "polygon",
            Tag::Text => "text",
        }
    }
}

/// An attribute.
#[derive(Clone, Copy, Debug, PartialEq, Eq)]
pub enum Key {
    Namespace,
    ViewBox,
    Width,
    Height,
    Class,
    X,
    Y,
    X1,
    Y1,
    X2,
    Y2,
    CenterX,
    CenterY,
    Radius,
    Points,
    Anchor,
}

impl Key {
    /// Its name.
    pub fn text(self) -> &'static str
        ensures { result.now ≡ key_text self }
    {
        match self {
            Key::Namespace => "xmlns",
            Key::ViewBox => "viewBox",
            Key::Width => "width",
            Key::Height => "height",
            Key::Class => "class",
            Key::X => "x",
            Key::Y => "y",
            Key::X1 => "x1",
            Key::Y1 => "y1",
            Key::X2 => "x2",
            Key::Y2 => "y2",
            Key::CenterX => "cx",
            Key::CenterY => "cy",
            Key::Radius => "r",
            Key::Points => "points",
            Key::Anchor => "text-anchor",
        }
    }
}
