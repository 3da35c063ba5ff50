//! Markup of HTML 5 that is well formed by its type: elements that are closed, attributes that are
//! quoted, text in which nothing can be taken for markup, style sheets that cannot end early,
//! drawings in SVG, and documents of one root.

mod attribute;
mod document;
mod html;
mod laws;
mod sign;
mod tag;
mod words;

pub use attribute::{Attribute, Key};
pub use document::Document;
pub use html::Html;
pub use laws::text_has_no_markup;
pub use sign::Sign;
pub use tag::{Tag, Void};
