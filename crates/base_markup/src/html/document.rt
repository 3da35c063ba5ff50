//! Documents of one root.

ghost use Rattle.std.specs.Prelude.{◌≡◌, IfOk};
ghost use Rattle.base_markup.specs.html.Content.{IsDocument, document_text};

use crate::html::html::Html;
use std::alloc::{AllocError, Global};

/// A whole document, in English: its head and its body in one root.
#[derive(Drop)]
pub struct Document {
    pub text: Vec<u8>,
    pub ghost one_root: { IsDocument text.items },
}

impl Document {
    /// The document of this head and this body.
    pub fn new(alloc: Global, head: &Html, body: &Html) -> Result<Document, AllocError>
        ensures { IfOk result (λ document. document.text.items
            ≡ document_text head.now.text.items body.now.text.items) }
    {
        let text = whole(alloc, &head.text, &body.text)?;
        Ok(Document { text })
    }
}

#[tactic(auto, unfolding(crate::specs::html::Content::document_text))]
fn whole(alloc: Global, head: &[u8], body: &[u8]) -> Result<Vec<u8>, AllocError>
    ensures { IfOk result (λ text. text.items ≡ document_text head.now body.now) }
{
    let mut text = Vec::from_slice(alloc, b"<!DOCTYPE html>\n<html lang=\"en\">\n<head>\n")?;
    text.extend_from_slice(head)?;
    text.extend_from_slice(b"</head>\n<body>\n")?;
    text.extend_from_slice(body)?;
    text.extend_from_slice(b"</body>\n</html>\n")?;
    Ok(text)
}
