//! Parts that are put together, where memory may have been wanting for any.

ghost use Rattle.std.specs.Prelude.{◌≡◌, ◌++◌, ◌∷◌, [], ℕ, List, IfOk, IsTrue, codes};
ghost use Rattle.base_markup.specs.declared.html.attribute.Key.TheVariants as key;
ghost use Rattle.base_markup.specs.declared.html.tag.Tag.TheVariants as tag;
ghost use Rattle.base_markup.specs.html.Attributes.{keys_differ, said};
ghost use Rattle.base_markup.specs.{html.Content.element_text, html.Words.words_text};
ghost use Rattle.draw_page.specs.Elements.{classed_html, plain_html};

use base_markup::html::{Attribute, Html, Key, Tag};
use std::alloc::{AllocError, Global};

/// One, and the other behind it.
pub fn joined(
    first: Result<Html, AllocError>,
    second: Result<Html, AllocError>,
) -> Result<Html, AllocError>
    ensures { (t : List ℕ) → (u : List ℕ) → IfOk first (λ html. html.text.items ≡ t)
        → IfOk second (λ html. html.text.items ≡ u)
        → IfOk result (λ html. html.text.items ≡ t ++ u) }
{
    first?.and(&second?)
}

/// These words as text.
pub fn text_of(alloc: Global, words: Result<Vec<u8>, AllocError>) -> Result<Html, AllocError>
    ensures { (t : List ℕ) → IfOk words (λ text. text.items ≡ t)
        → IfOk result (λ html. html.text.items ≡ words_text t) }
{
    let words = words?;
    Html::words(alloc, words.as_slice())
}

/// An element with these attributes and this in it.
pub fn element(
    alloc: Global,
    tag: Tag,
    attributes: &[Attribute<'_>],
    inside: Result<Html, AllocError>,
) -> Result<Html, AllocError>
    requires { IsTrue (keys_differ (said attributes.now)) }
    ensures { (t : List ℕ) → IfOk inside (λ html. html.text.items ≡ t)
        → IfOk result (λ html. html.text.items ≡ element_text tag (said attributes.now) t) }
{
    Html::element(alloc, tag, attributes, &inside?)
}

/// An element with this in it.
pub fn around(alloc: Global, tag: Tag, inside: Result<Html, AllocError>) -> Result<Html, AllocError>
    ensures { (t : List ℕ) → IfOk inside (λ html. html.text.items ≡ t)
        → IfOk result (λ html. html.text.items ≡ plain_html tag t) }
{
    element(alloc, tag, &[], inside)
}

/// An element of a class with this in it.
pub fn classed_around(
    alloc: Global,
    tag: Tag,
    class: &[u8],
    inside: Result<Html, AllocError>,
) -> Result<Html, AllocError>
    ensures { (t : List ℕ) → IfOk inside (λ html. html.text.items ≡ t)
        → IfOk result (λ html. html.text.items ≡ classed_html tag class.now t) }
{
    let class = Attribute {
        key: Key::Class,
        words: class,
    };
    element(alloc, tag, &[class], inside)
}

/// A division of a class with this in it, which is for eyes alone.
pub fn hidden(
    alloc: Global,
    class: &[u8],
    inside: Result<Html, AllocError>,
) -> Result<Html, AllocError>
    ensures { (t : List ℕ) → IfOk inside (λ html. html.text.items ≡ t)
        → IfOk result (λ html. html.text.items ≡ element_text tag.Division
        ((key.Class, class.now) ∷ ((key.AriaHidden, codes "true") ∷ [])) t) }
{
    let class = Attribute {
        key: Key::Class,
        words: class,
    };
    let hidden = Attribute {
        key: Key::AriaHidden,
        words: b"true",
    };
    element(alloc, Tag::Division, &[class, hidden], inside)
}

/// An element with an attribute of these words, and with this in it.
pub fn named(
    alloc: Global,
    tag: Tag,
    key: Key,
    words: Result<Vec<u8>, AllocError>,
    inside: Result<Html, AllocError>,
) -> Result<Html, AllocError>
    ensures { (w t : List ℕ) → IfOk words (λ text. text.items ≡ w)
        → IfOk inside (λ html. html.text.items ≡ t)
        → IfOk result (λ html. html.text.items ≡ element_text tag ((key, w) ∷ []) t) }
{
    let inside = inside?;
    let words = words?;
    let attribute = Attribute {
        key,
        words: words.as_slice(),
    };
    Html::element(alloc, tag, &[attribute], &inside)
}
