//! Words as text.

ghost use Rattle.std.specs.Prelude.{◌≡◌, ◌++◌, IfOk, OnOk};
ghost use Rattle.base_markup.specs.svg.Escape.{escaped};
ghost use Rattle.base_markup.specs.html.Words.{character_text, characters_text, plain_text, words_text};
ghost use Rattle.base_markup.specs.html.Words.{is_noncharacter as no_character, is_text as is_plain_text};

use crate::svg::Markup;
use std::alloc::{AllocError, Global};

/// Words as text: in UTF-8 each character as it is, but for those that markup uses and those that
/// HTML has not as text.
pub(crate) fn words_of(alloc: Global, words: &[u8]) -> Result<Vec<u8>, AllocError>
    ensures { IfOk result (λ text. text.items ≡ words_text words.now) }
{
    match str::from_utf8(words) {
        Ok(said) => characters(alloc, said),
        Err(_) => bytes(alloc, words),
    }
}

fn bytes(alloc: Global, words: &[u8]) -> Result<Vec<u8>, AllocError>
    ensures { IfOk result (λ text. text.items ≡ escaped words.now) }
{
    let said = Markup::words(alloc, words)?;
    Ok(said.text)
}

fn characters(alloc: Global, words: &str) -> Result<Vec<u8>, AllocError>
    ensures { IfOk result (λ text. text.items ≡ characters_text words.now) }
{
    let mut text = Vec::new(alloc);
    for c in words.chars() {
        put_character(&mut text, c)?;
    }
    Ok(text)
}

#[tactic(auto, unfolding(crate::specs::html::Words::character_text))]
fn put_character(text: &mut Vec<u8>, c: char) -> Result<(), AllocError>
    ensures { OnOk result (text.new.items ≡ text.old.items ++ character_text c) }
{
    match c {
        '&' => text.extend_from_slice(b"&amp;"),
        '<' => text.extend_from_slice(b"&lt;"),
        '>' => text.extend_from_slice(b"&gt;"),
        '"' => text.extend_from_slice(b"&quot;"),
        _ => put_plain(text, c),
    }
}

#[tactic(auto, unfolding(crate::specs::html::Words::plain_text))]
fn put_plain(text: &mut Vec<u8>, c: char) -> Result<(), AllocError>
    ensures { OnOk result (text.new.items ≡ text.old.items ++ plain_text c) }
{
    if !is_text(c) {
        return text.extend_from_slice(b"?");
    }
    let mut room = [0; 4];
    text.extend_from_slice(c.encode_utf8(&mut room).as_bytes())
}

fn is_text(c: char) -> bool
    ensures { result ≡ is_plain_text c }
{
    let n = c as u32;
    n == 10 || (32 <= n && n <= 126) || (160 <= n && !is_noncharacter(n))
}

fn is_noncharacter(n: u32) -> bool
    ensures { result ≡ no_character n }
{
    (64976 <= n && n <= 65007) || 65534 <= n % 65536
}
