//! What the item of a record says.

ghost use Rattle.std.specs.Prelude.{◌≡◌};
ghost use Rattle.file_tables.specs.script.Checks.{item_of, is_head};

use base_records::is;
use model_line::{Element, Kind};

/// A head with its kind, an element that is seen, or a channel that is lost.
#[derive(Clone, Copy)]
pub enum Item {
    Head(Kind),
    Seen(Element),
    Lost,
}

/// The item of this text, if it is one of the eight.
pub fn item_named(text: &[u8]) -> Option<Item>
    ensures { result ≡ item_of text.now }
{
    if is(text, b"internal") {
        Some(Item::Head(Kind::Internal))
    } else if is(text, b"external") {
        Some(Item::Head(Kind::External))
    } else if is(text, b"z1") {
        Some(Item::Seen(Element::Z1))
    } else if is(text, b"z2") {
        Some(Item::Seen(Element::Z2))
    } else if is(text, b"rv") {
        Some(Item::Seen(Element::Rv))
    } else if is(text, b"uv") {
        Some(Item::Seen(Element::Uv))
    } else if is(text, b"cur") {
        Some(Item::Seen(Element::Cur))
    } else if is(text, b"loss") {
        Some(Item::Lost)
    } else {
        None
    }
}

/// Whether the item opens a script.
pub fn opens(item: Option<Item>) -> bool
    ensures { result ≡ is_head item }
{
    matches!(item, Some(Item::Head(_)))
}
