//! Texts of a document that stand for something: the kind of a fault, and a plain name.

ghost use Rattle.std.specs.Prelude.{◌≡◌, IfOk, true};
ghost use Rattle.model_line.specs.PlainNames.{is_plain_name};
ghost use Rattle.file_document.specs.Words.{kind_of, plain_name};

use crate::fault::DocumentFault;
use crate::path::Path;
use model_line::{Kind, Name, is_plain};

/// The kind of a fault, by its word.
pub fn kind_of(path: Path, text: &str) -> Result<Kind, DocumentFault>
    ensures { result ≡ kind_of path text.now }
{
    match text {
        "internal" => Ok(Kind::Internal),
        "external" => Ok(Kind::External),
        _ => Err(DocumentFault::BadName(path)),
    }
}

/// A plain name.
pub fn plain_name(path: Path, text: &str) -> Result<Name, DocumentFault>
    ensures is { result ≡ plain_name path text.now }
    ensures plain { IfOk result (λ n. is_plain_name n ≡ true) }
{
    if is_plain(text.as_bytes()) {
        Ok(Name::plain(text.as_bytes()))
    } else {
        Err(DocumentFault::BadName(path))
    }
}
