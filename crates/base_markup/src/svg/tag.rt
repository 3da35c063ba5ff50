//! The elements of a drawing.

ghost use Rattle.std.specs.Prelude.{◌≡◌};
ghost use Rattle.base_markup.specs.svg.Names.{tag_name};

/// The elements that a drawing has.
#[derive(Clone, Copy)]
pub enum Tag {
    Svg,
    Title,
    Description,
    Style,
    Defs,
    Pattern,
    Group,
    Rectangle,
    Line,
    Text,
}

impl Tag {
    /// Its name in SVG.
    pub fn name(self) -> &'static [u8]
        ensures { result.now ≡ tag_name self }
    {
        match self {
            Tag::Svg => b"svg",
            Tag::Title => b"title",
            Tag::Description => b"desc",
            Tag::Style => b"style",
            Tag::Defs => b"defs",
            Tag::Pattern => b"pattern",
            Tag::Group => b"g",
            Tag::Rectangle => b"rect",
            Tag::Line => b"line",
            Tag::Text => b"text",
        }
    }
}
