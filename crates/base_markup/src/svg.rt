//! Markup of SVG (XML 1.0) that is well formed by its type: elements that are closed, attributes
//! that are quoted, and text in which nothing can be taken for markup.

mod attribute;
mod escape;
mod laws;
mod markup;
mod tag;

pub use attribute::{Attribute, Key, Value, tenths, words};
pub use laws::escaped_words_are_plain;
pub use markup::Markup;
pub use tag::Tag;
