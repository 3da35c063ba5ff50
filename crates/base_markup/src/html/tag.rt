//! The elements of a page.

ghost use Rattle.std.specs.Prelude.{◌≡◌};
ghost use Rattle.base_markup.specs.html.Names.{tag_end, tag_name, void_name};

/// The elements that hold others or text. What holds a whole document is none of them.
#[derive(Clone, Copy)]
pub enum Tag {
    Title,
    Header,
    Nav,
    Main,
    Section,
    Footer,
    Heading1,
    Heading2,
    Heading3,
    Paragraph,
    Division,
    Span,
    Strong,
    Code,
    Preformatted,
    Link,
    List,
    Item,
    Table,
    Caption,
    TableHead,
    TableBody,
    Row,
    HeadCell,
    Cell,
    Figure,
    Details,
    Summary,
}

/// The elements that hold nothing and are not closed.
#[derive(Clone, Copy)]
pub enum Void {
    Meta,
    Break,
}

impl Tag {
    /// Its name in HTML.
    pub fn name(self) -> &'static [u8]
        ensures { result.now ≡ tag_name self }
    {
        match self {
            Tag::Title => b"title",
            Tag::Header => b"header",
            Tag::Nav => b"nav",
            Tag::Main => b"main",
            Tag::Section => b"section",
            Tag::Footer => b"footer",
            Tag::Heading1 => b"h1",
            Tag::Heading2 => b"h2",
            Tag::Heading3 => b"h3",
            Tag::Paragraph => b"p",
            Tag::Division => b"div",
            Tag::Span => b"span",
            Tag::Strong => b"strong",
            Tag::Code => b"code",
            Tag::Preformatted => b"pre",
            Tag::Link => b"a",
            Tag::List => b"ul",
            Tag::Item => b"li",
            Tag::Table => b"table",
            Tag::Caption => b"caption",
            Tag::TableHead => b"thead",
            Tag::TableBody => b"tbody",
            Tag::Row => b"tr",
            Tag::HeadCell => b"th",
            Tag::Cell => b"td",
            Tag::Figure => b"figure",
            Tag::Details => b"details",
            Tag::Summary => b"summary",
        }
    }

    /// What stands behind its end: the end of the line, but for those within a line.
    pub fn end(self) -> &'static [u8]
        ensures { result.now ≡ tag_end self }
    {
        match self {
            Tag::Span | Tag::Strong | Tag::Code | Tag::Link => b"",
            _ => b"\n",
        }
    }
}

impl Void {
    /// Its name in HTML.
    pub fn name(self) -> &'static [u8]
        ensures { result.now ≡ void_name self }
    {
        match self {
            Void::Meta => b"meta",
            Void::Break => b"br",
        }
    }
}
