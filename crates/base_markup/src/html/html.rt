//! Markup that is well formed.

ghost use Rattle.std.specs.Prelude.{◌≡◌, ◌++◌, [], IfOk, OnOk, IsTrue};
ghost use Rattle.base_markup.specs.svg.Attributes as svg;
ghost use Rattle.base_markup.specs.svg.Content as svg_content;
ghost use Rattle.base_markup.specs.declared.svg.tag.Tag.TheVariants as svg_tag;
ghost use Rattle.base_markup.specs.html.Attributes.{keys_differ, said};
ghost use Rattle.base_markup.specs.html.Content.{IsHtml, element_text, sheet_text, start_text, void_text};
ghost use Rattle.base_markup.specs.html.Content.{plain_sheet};
ghost use Rattle.base_markup.specs.html.Names.{sign_text};
ghost use Rattle.base_markup.specs.html.Words.{words_text};

use crate::html::attribute::{Attribute, put_attributes};
use crate::html::sign::Sign;
use crate::html::tag::{Tag, Void};
use crate::html::words::words_of;
use crate::svg::Markup;
use std::alloc::{AllocError, Global};

/// Elements and text, one after another. Each element is closed, each attribute is quoted and
/// stands once in its element, and no text can be taken for markup.
#[derive(Drop)]
pub struct Html {
    pub text: Vec<u8>,
    pub ghost well_formed: { ∥ IsHtml text.items ∥₁ },
}

impl Html {
    /// Nothing.
    pub fn new(alloc: Global) -> Html
        ensures { result.text.items ≡ [] }
    {
        Html {
            text: Vec::new(alloc),
        }
    }

    /// These words as text, whatever is in them.
    pub fn words(alloc: Global, words: &[u8]) -> Result<Html, AllocError>
        ensures { IfOk result (λ html. html.text.items ≡ words_text words.now) }
    {
        let text = words_of(alloc, words)?;
        Ok(Html { text })
    }

    /// A sign.
    pub fn sign(alloc: Global, sign: Sign) -> Result<Html, AllocError>
        ensures { IfOk result (λ html. html.text.items ≡ sign_text sign) }
    {
        let text = Vec::from_slice(alloc, sign.reference())?;
        Ok(Html { text })
    }

    /// An element that holds nothing.
    pub fn void(alloc: Global, tag: Void, attributes: &[Attribute<'_>]) -> Result<Html, AllocError>
        requires { IsTrue (keys_differ (said attributes.now)) }
        ensures { IfOk result (λ html. html.text.items ≡ void_text tag (said attributes.now)) }
    {
        let text = void(alloc, tag, attributes)?;
        Ok(Html { text })
    }

    /// An element with this in it.
    pub fn element(
        alloc: Global,
        tag: Tag,
        attributes: &[Attribute<'_>],
        inside: &Html,
    ) -> Result<Html, AllocError>
        requires { IsTrue (keys_differ (said attributes.now)) }
        ensures { IfOk result (λ html.
            html.text.items ≡ element_text tag (said attributes.now) inside.now.text.items) }
    {
        let text = element(alloc, tag, attributes, &inside.text)?;
        Ok(Html { text })
    }

    /// A style sheet, in which `?` stands for each `<`, so that nothing in it ends it.
    pub fn sheet(alloc: Global, sheet: &[u8]) -> Result<Html, AllocError>
        ensures { IfOk result (λ html. html.text.items ≡ sheet_text sheet.now) }
    {
        let text = sheet_element(alloc, sheet)?;
        Ok(Html { text })
    }

    /// A drawing: one element of SVG with this in it.
    pub fn drawing(
        alloc: Global,
        attributes: &[crate::svg::Attribute<'_>],
        inside: &Markup,
    ) -> Result<Html, AllocError>
        requires { IsTrue (svg.keys_differ (svg.said attributes.now)) }
        ensures { IfOk result (λ html. html.text.items
            ≡ svg_content.element_text svg_tag.Svg (svg.said attributes.now)
            inside.now.text.items) }
    {
        let drawn = Markup::element(alloc, crate::svg::Tag::Svg, attributes, inside)?;
        let text = drawn.text;
        Ok(Html { text })
    }

    /// This, and the other behind it.
    pub fn and(self, other: &Html) -> Result<Html, AllocError>
        ensures { IfOk result (λ html.
            html.text.items ≡ self.text.items ++ other.now.text.items) }
    {
        let mut text = self.text;
        text.extend_from_slice(&other.text)?;
        Ok(Html { text })
    }
}

// Appends the start of an element.
fn put_start(
    alloc: Global,
    text: &mut Vec<u8>,
    name: &[u8],
    attributes: &[Attribute<'_>],
) -> Result<(), AllocError>
    ensures { OnOk result (text.new.items
        ≡ text.old.items ++ start_text name.now (said attributes.now)) }
{
    text.extend_from_slice(b"<")?;
    text.extend_from_slice(name)?;
    put_attributes(alloc, text, attributes)?;
    text.extend_from_slice(b">")
}

#[tactic(auto, unfolding(crate::specs::html::Content::void_text))]
fn void(alloc: Global, tag: Void, attributes: &[Attribute<'_>]) -> Result<Vec<u8>, AllocError>
    ensures { IfOk result (λ text. text.items ≡ void_text tag (said attributes.now)) }
{
    let mut text = Vec::new(alloc);
    put_start(alloc, &mut text, tag.name(), attributes)?;
    text.extend_from_slice(b"\n")?;
    Ok(text)
}

#[tactic(auto, unfolding(crate::specs::html::Content::element_text))]
fn element(
    alloc: Global,
    tag: Tag,
    attributes: &[Attribute<'_>],
    inside: &[u8],
) -> Result<Vec<u8>, AllocError>
    ensures { IfOk result (λ text.
        text.items ≡ element_text tag (said attributes.now) inside.now) }
{
    let mut text = Vec::new(alloc);
    put_start(alloc, &mut text, tag.name(), attributes)?;
    text.extend_from_slice(inside)?;
    text.extend_from_slice(b"</")?;
    text.extend_from_slice(tag.name())?;
    text.extend_from_slice(b">")?;
    text.extend_from_slice(tag.end())?;
    Ok(text)
}

#[tactic(auto, unfolding(crate::specs::html::Content::sheet_text))]
fn sheet_element(alloc: Global, sheet: &[u8]) -> Result<Vec<u8>, AllocError>
    ensures { IfOk result (λ text. text.items ≡ sheet_text sheet.now) }
{
    let mut text = Vec::from_slice(alloc, b"<style>")?;
    put_sheet(&mut text, sheet)?;
    text.extend_from_slice(b"</style>\n")?;
    Ok(text)
}

fn put_sheet(text: &mut Vec<u8>, sheet: &[u8]) -> Result<(), AllocError>
    ensures { OnOk result (text.new.items ≡ text.old.items ++ plain_sheet sheet.now) }
{
    for letter in sheet {
        let plain = if *letter == b'<' { b'?' } else { *letter };
        text.push(plain)?;
    }
    Ok(())
}
