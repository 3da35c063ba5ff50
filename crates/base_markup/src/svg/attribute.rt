//! The attributes of an element.

ghost use Rattle.std.specs.Prelude.{◌≡◌, ◌++◌, OnOk, IfOk};
ghost use Rattle.base_markup.specs.svg.Attributes.{words_of, attribute_text, attributes_text, said};
ghost use Rattle.base_markup.specs.svg.Attributes.{tenths_said};
ghost use Rattle.base_markup.specs.{svg.Names.key_name, svg.Escape.escaped};

use crate::svg::escape::put_escaped;
use itoa::Buffer;
use std::alloc::{AllocError, Global};

/// The attributes that an element may have.
#[derive(Clone, Copy)]
pub enum Key {
    Xmlns,
    ViewBox,
    Role,
    Id,
    Class,
    Width,
    Height,
    X,
    Y,
    X1,
    Y1,
    X2,
    Y2,
    PatternUnits,
    PatternTransform,
}

/// What an attribute is set to: words as they are, or a number of tenths, as `210.6`.
#[derive(Clone, Copy)]
pub enum Value<'a> {
    Words(&'a [u8]),
    Tenths(u32),
}

/// An attribute and what it is set to.
#[derive(Clone, Copy)]
pub struct Attribute<'a> {
    pub key: Key,
    pub value: Value<'a>,
}

/// An attribute of these words.
pub fn words<'a>(key: Key, text: &'a [u8]) -> Attribute<'a>
    ensures key { result.key ≡ key }
    ensures value { words_of result.value ≡ text.now }
{
    Attribute {
        key,
        value: Value::Words(text),
    }
}

/// An attribute of so many tenths.
pub fn tenths<'a>(key: Key, number: u32) -> Attribute<'a>
    ensures key { result.key ≡ key }
    ensures value { words_of result.value ≡ tenths_said number }
{
    Attribute {
        key,
        value: Value::Tenths(number),
    }
}

impl Key {
    /// Its name in SVG.
    pub fn name(self) -> &'static [u8]
        ensures { result.now ≡ key_name self }
    {
        match self {
            Key::Xmlns => b"xmlns",
            Key::ViewBox => b"viewBox",
            Key::Role => b"role",
            Key::Id => b"id",
            Key::Class => b"class",
            Key::Width => b"width",
            Key::Height => b"height",
            Key::X => b"x",
            Key::Y => b"y",
            Key::X1 => b"x1",
            Key::Y1 => b"y1",
            Key::X2 => b"x2",
            Key::Y2 => b"y2",
            Key::PatternUnits => b"patternUnits",
            Key::PatternTransform => b"patternTransform",
        }
    }
}

// The words that an attribute is set to.
fn words_set(alloc: Global, value: Value<'_>) -> Result<Vec<u8>, AllocError>
    ensures { IfOk result (λ words. words.items ≡ words_of value.entry) }
{
    match value {
        Value::Words(words) => Vec::from_slice(alloc, words),
        Value::Tenths(number) => tenths_text(alloc, number),
    }
}

// A number of tenths in decimal digits.
fn tenths_text(alloc: Global, number: u32) -> Result<Vec<u8>, AllocError>
    ensures { IfOk result (λ text. text.items ≡ tenths_said number) }
{
    let mut text = Vec::from_slice(alloc, Buffer::new().format(number / 10).as_bytes())?;
    text.extend_from_slice(b".")?;
    text.extend_from_slice(Buffer::new().format(number % 10).as_bytes())?;
    Ok(text)
}

/// Appends attributes, each with a space before it.
pub fn put_attributes(
    alloc: Global,
    text: &mut Vec<u8>,
    attributes: &[Attribute<'_>],
) -> Result<(), AllocError>
    ensures { OnOk result (text.new.items
        ≡ text.old.items ++ attributes_text (said attributes.now)) }
{
    for attribute in attributes {
        put_attribute(alloc, text, attribute)?;
    }
    Ok(())
}

fn put_attribute(
    alloc: Global,
    text: &mut Vec<u8>,
    attribute: &Attribute<'_>,
) -> Result<(), AllocError>
    ensures { OnOk result (text.new.items
        ≡ text.old.items
        ++ attribute_text (attribute.now.key, words_of attribute.now.value)) }
{
    let words = words_set(alloc, attribute.value)?;
    text.extend_from_slice(b" ")?;
    text.extend_from_slice(attribute.key.name())?;
    text.extend_from_slice(b"=\"")?;
    put_escaped(text, words.as_slice())?;
    text.extend_from_slice(b"\"")
}
