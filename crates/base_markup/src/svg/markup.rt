//! Markup that is well formed.

ghost use Rattle.std.specs.Prelude.{◌≡◌, ◌++◌, [], IfOk, OnOk, IsTrue, codes};
ghost use Rattle.base_markup.specs.svg.Attributes.{keys_differ, said};
ghost use Rattle.base_markup.specs.svg.Content.{IsContent, start_text, leaf_text, element_text};
ghost use Rattle.base_markup.specs.svg.Escape.{escaped};

use crate::svg::attribute::{Attribute, put_attributes};
use crate::svg::escape::put_escaped;
use crate::svg::laws::line_feed_is_itself;
use crate::svg::tag::Tag;
use std::alloc::{AllocError, Global};

/// Elements and text, one after another. Each element is closed, each attribute is quoted and
/// stands once in its element, and no text can be taken for markup.
#[derive(Drop)]
pub struct Markup {
    pub text: Vec<u8>,
    pub ghost well_formed: { ∥ IsContent text.items ∥₁ },
}

impl Markup {
    /// Nothing.
    pub fn new(alloc: Global) -> Markup
        ensures { result.text.items ≡ [] }
    {
        Markup {
            text: Vec::new(alloc),
        }
    }

    /// These words as text, whatever is in them.
    pub fn words(alloc: Global, words: &[u8]) -> Result<Markup, AllocError>
        ensures { IfOk result (λ markup. markup.text.items ≡ escaped words.now) }
    {
        let mut text = Vec::new(alloc);
        put_escaped(&mut text, words)?;
        Ok(Markup { text })
    }

    /// The end of a line.
    pub fn line_end(alloc: Global) -> Result<Markup, AllocError>
        ensures { IfOk result (λ markup. markup.text.items ≡ codes "\n") }
    {
        line_feed_is_itself();
        Markup::words(alloc, b"\n")
    }

    /// An element with nothing in it.
    pub fn leaf(alloc: Global, tag: Tag, attributes: &[Attribute<'_>]) -> Result<Markup, AllocError>
        requires { IsTrue (keys_differ (said attributes.now)) }
        ensures { IfOk result (λ markup.
            markup.text.items ≡ leaf_text tag (said attributes.now)) }
    {
        let text = leaf(alloc, tag, attributes)?;
        Ok(Markup { text })
    }

    /// An element with this in it.
    pub fn element(
        alloc: Global,
        tag: Tag,
        attributes: &[Attribute<'_>],
        inside: &Markup,
    ) -> Result<Markup, AllocError>
        requires { IsTrue (keys_differ (said attributes.now)) }
        ensures { IfOk result (λ markup.
            markup.text.items ≡ element_text tag (said attributes.now) inside.now.text.items) }
    {
        let text = element(alloc, tag, attributes, &inside.text)?;
        Ok(Markup { text })
    }

    /// This, and the other behind it.
    pub fn and(self, other: &Markup) -> Result<Markup, AllocError>
        ensures { IfOk result (λ markup.
            markup.text.items ≡ self.text.items ++ other.now.text.items) }
    {
        let mut text = self.text;
        text.extend_from_slice(&other.text)?;
        Ok(Markup { text })
    }
}

// Appends the start of an element, up to what closes it.
fn put_start(
    alloc: Global,
    text: &mut Vec<u8>,
    tag: Tag,
    attributes: &[Attribute<'_>],
) -> Result<(), AllocError>
    ensures { OnOk result (text.new.items
        ≡ text.old.items ++ start_text tag (said attributes.now)) }
{
    text.extend_from_slice(b"<")?;
    text.extend_from_slice(tag.name())?;
    put_attributes(alloc, text, attributes)
}

#[tactic(auto, unfolding(crate::specs::svg::Content::leaf_text))]
fn leaf(alloc: Global, tag: Tag, attributes: &[Attribute<'_>]) -> Result<Vec<u8>, AllocError>
    ensures { IfOk result (λ text. text.items ≡ leaf_text tag (said attributes.now)) }
{
    let mut text = Vec::new(alloc);
    put_start(alloc, &mut text, tag, attributes)?;
    text.extend_from_slice(b"/>")?;
    Ok(text)
}

#[tactic(auto, unfolding(crate::specs::svg::Content::element_text))]
fn element(
    alloc: Global,
    tag: Tag,
    attributes: &[Attribute<'_>],
    inside: &[u8],
) -> Result<Vec<u8>, AllocError>
    ensures { IfOk result (λ text.
        text.items ≡ element_text tag (said attributes.now) inside.now) }
{
    let mut text = Vec::new(alloc);
    put_start(alloc, &mut text, tag, attributes)?;
    text.extend_from_slice(b">")?;
    text.extend_from_slice(inside)?;
    text.extend_from_slice(b"</")?;
    text.extend_from_slice(tag.name())?;
    text.extend_from_slice(b">")?;
    Ok(text)
}
