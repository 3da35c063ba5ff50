//! The attributes of an element.

ghost use Rattle.std.specs.Prelude.{◌≡◌, ◌++◌, OnOk, IfOk};
ghost use Rattle.base_markup.specs.html.Attributes.{attribute_text, attributes_text, said};
ghost use Rattle.base_markup.specs.{html.Names.key_name};

use crate::svg::Markup;
use std::alloc::{AllocError, Global};

/// The attributes that an element may have.
#[derive(Clone, Copy)]
pub enum Key {
    Lang,
    Charset,
    Name,
    Content,
    Id,
    Class,
    Href,
    Scope,
    Colspan,
    Rowspan,
    Title,
    Role,
    AriaLabel,
    AriaHidden,
}

/// An attribute and the words that it is set to.
#[derive(Clone, Copy)]
pub struct Attribute<'a> {
    pub key: Key,
    pub words: &'a [u8],
}

impl Key {
    /// Its name in HTML.
    pub fn name(self) -> &'static [u8]
        ensures { result.now ≡ key_name self }
    {
        match self {
            Key::Lang => b"lang",
            Key::Charset => b"charset",
            Key::Name => b"name",
            Key::Content => b"content",
            Key::Id => b"id",
            Key::Class => b"class",
            Key::Href => b"href",
            Key::Scope => b"scope",
            Key::Colspan => b"colspan",
            Key::Rowspan => b"rowspan",
            Key::Title => b"title",
            Key::Role => b"role",
            Key::AriaLabel => b"aria-label",
            Key::AriaHidden => b"aria-hidden",
        }
    }
}

/// Appends attributes, each with a space before it.
pub(crate) fn put_attributes(
    alloc: Global,
    text: &mut Vec<u8>,
    attributes: &[Attribute<'_>],
) -> Result<(), AllocError>
    ensures { OnOk result (text.new.items
        ≡ text.old.items ++ attributes_text (said attributes.now)) }
{
    for attribute in attributes {
        put_attribute(alloc, text, attribute)?;
    }
    Ok(())
}

#[tactic(auto, unfolding(crate::specs::html::Attributes::attribute_text))]
fn put_attribute(
    alloc: Global,
    text: &mut Vec<u8>,
    attribute: &Attribute<'_>,
) -> Result<(), AllocError>
    ensures { OnOk result (text.new.items
        ≡ text.old.items ++ attribute_text (attribute.now.key, attribute.now.words.now)) }
{
    let words = Markup::words(alloc, attribute.words)?;
    text.extend_from_slice(b" ")?;
    text.extend_from_slice(attribute.key.name())?;
    text.extend_from_slice(b"=\"")?;
    text.extend_from_slice(&words.text)?;
    text.extend_from_slice(b"\"")
}
