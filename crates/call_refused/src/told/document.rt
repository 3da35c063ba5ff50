//! Of a TOML document that is refused.

ghost use Rattle.std.specs.Prelude.{◌≤◌, IfOk, length};
ghost use Rattle.call_refused.specs.told.Told.{IsToldAt, IsToldOn};

use crate::places::{joint, last_key, toml_place};
use crate::told::one_line::told;
use crate::words::near::nearest;
use crate::words::said::Said;
use crate::words::toml_words;
use base_memory::Memory;
use base_text::pieces::push_pieces;
use std::alloc::Global;

/// The line of what is said of the key at this path, which stands at the place.
pub fn at_key(
    alloc: Global,
    name: &str,
    bytes: &[u8],
    at: usize,
    path: &[u8],
    said: Said<'_>,
) -> Result<Vec<u8>, Memory>
    requires { at ≤ length bytes.now }
    ensures told { IfOk result (λ text. IsToldAt name.now bytes.now text.items) }
    ensures on { IfOk result (λ text. IsToldOn name.now bytes.now at text.items) }
{
    let [first, second, third] = said.write;
    let more: [&[u8]; 8] = [
        path,
        b"`: ",
        said.before.as_bytes(),
        said.what.as_bytes(),
        joint(b"; write ", first),
        first,
        second,
        third,
    ];
    told(alloc, name, bytes, at, "`", &more)
}

/// The line of a key that does not belong to its table, which has these keys, and behind them what
/// else may stand there.
pub fn unknown_key(
    alloc: Global,
    name: &str,
    bytes: &[u8],
    at: usize,
    path: &[u8],
    keys: &'static [&'static str],
    others: &str,
) -> Result<Vec<u8>, Memory>
    requires { at ≤ length bytes.now }
    ensures told { IfOk result (λ text. IsToldAt name.now bytes.now text.items) }
    ensures on { IfOk result (λ text. IsToldOn name.now bytes.now at text.items) }
{
    let key = last_key(path);
    let mut write = Vec::new(alloc);
    if key == b"zone1_trip".as_slice() {
        push_pieces(&mut write, &[b"it at the top, before the first table"])?;
    } else if is_one_of(keys, key) {
        push_pieces(&mut write, &[b"a scheme that has it, or take it out"])?;
    } else if let Some(near) = nearest(keys, key) {
        push_pieces(&mut write, &[b"`", near.as_bytes(), b"`"])?;
    } else {
        push_keys(&mut write, keys)?;
        push_pieces(&mut write, &[others.as_bytes()])?;
    }
    let more: [&[u8]; 3] = [path, b"`: this key does not belong here; write ", &write];
    told(alloc, name, bytes, at, "`", &more)
}

// Whether the table has the key in some scheme.
fn is_one_of(keys: &[&str], key: &[u8]) -> bool {
    for own in keys {
        if own.as_bytes() == key {
            return true;
        }
    }
    false
}

// Appends the keys, with a comma between two.
fn push_keys(text: &mut Vec<u8>, keys: &[&str]) -> Result<(), Memory> {
    let mut between: &[u8] = b"one of ";
    for key in keys {
        push_pieces(text, &[between, key.as_bytes()])?;
        between = b", ";
    }
    Ok(())
}

/// The line of bytes that are no TOML document.
pub fn refused_toml(alloc: Global, name: &str, bytes: &[u8]) -> Result<Vec<u8>, Memory>
    ensures { IfOk result (λ text. IsToldAt name.now bytes.now text.items) }
{
    let place = toml_place(alloc, bytes)?;
    let words = toml_words(bytes, place.at, place.is_twice);
    told(
        alloc,
        name,
        bytes,
        place.at,
        "this is no TOML",
        &[words.as_bytes()],
    )
}
