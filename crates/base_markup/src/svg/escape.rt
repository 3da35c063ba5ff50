//! Text in which nothing can be taken for markup.

ghost use Rattle.std.specs.Prelude.{◌≡◌, ◌++◌, OnOk};
ghost use Rattle.base_markup.specs.svg.Escape.{escape, escaped};

use std::alloc::AllocError;

/// Appends the words: each character that markup uses by its reference, and `?` for what is
/// neither printable ASCII nor a line feed.
pub fn put_escaped(text: &mut Vec<u8>, words: &[u8]) -> Result<(), AllocError>
    ensures { OnOk result (text.new.items ≡ text.old.items ++ escaped words.now) }
{
    for letter in words {
        put_letter(text, *letter)?;
    }
    Ok(())
}

#[tactic(auto, unfolding(crate::specs::svg::Escape::escape))]
fn put_letter(text: &mut Vec<u8>, letter: u8) -> Result<(), AllocError>
    ensures { OnOk result (text.new.items ≡ text.old.items ++ escape letter) }
{
    match letter {
        b'&' => text.extend_from_slice(b"&amp;"),
        b'<' => text.extend_from_slice(b"&lt;"),
        b'>' => text.extend_from_slice(b"&gt;"),
        b'"' => text.extend_from_slice(b"&quot;"),
        b'\n' | 32..=126 => text.extend_from_slice(&[letter]),
        _ => text.extend_from_slice(b"?"),
    }
}
