//! Where what a path names begins in a TOML document.

ghost use Rattle.std.specs.Prelude.{◌≡◌, ◌≤◌, ◌<◌, [], true, false, suc, IfOk, IfSome, length, take};
ghost use Rattle.std.specs.List.{list_all};
ghost use Rattle.call_refused.specs.places.Entries.{BeginsDocument, BeginsInLine, IsPlaceOrFirst};
ghost use Rattle.call_refused.specs.places.Entries.{has_entry as has, is_closing as closes_what};
ghost use Rattle.call_refused.specs.places.Entries.{path_of as path_by};
ghost use Rattle.toml.specs.View.{table_view};

use crate::places::bytes::first_line;
use crate::places::keys::{closing_of, place_of_key, place_of_table};
use crate::places::place::before_in_line;
use crate::places::steps::{Step, has_entry, path_of, steps_in};
use base_memory::{Memory, Stopped};
use base_text::pieces::text_of;
use file_document::Path;
use file_document::keys::open;
use std::alloc::Global;
use toml::Table;

/// The place of what stands at this path or, where nothing does, of the innermost that leads there. It is
/// checked: the bytes before its line have no such entry, and those through it have. Where that
/// does not hold, the first byte.
pub fn place_of_fault(alloc: Global, bytes: &[u8], path: &[u8]) -> Result<usize, Memory>
    ensures within { IfOk result (λ at. at ≤ length bytes.now) }
    ensures place { IfOk result (λ at. IsPlaceOrFirst bytes.now path.now at) }
{
    let Ok(text) = std::str::from_utf8(path) else {
        return Ok(0);
    };
    let steps = steps_in(alloc, text)?;
    if path_of(&steps).bytes() != path {
        return Ok(0);
    }
    place_behind(alloc, bytes, path, &steps)
}

// The same, behind the steps of the path.
fn place_behind(
    alloc: Global,
    bytes: &[u8],
    path: &[u8],
    steps: &[Step<'_>],
) -> Result<usize, Memory>
    requires { path_by [] steps.now ≡ path.now }
    ensures within { IfOk result (λ at. at ≤ length bytes.now) }
    ensures place { IfOk result (λ at. IsPlaceOrFirst bytes.now path.now at) }
{
    let depth = depth_in(alloc, bytes, steps)?;
    if depth == 0 {
        return Ok(0);
    }
    let own = path_of(&steps[..depth]);
    let at = first_place(alloc, bytes, own)?;
    if begins_in_line(alloc, bytes, at, &steps[..depth])? {
        Ok(at)
    } else {
        Ok(0)
    }
}

// Where the path stands first: of an array of tables where its first table does.
fn first_place(alloc: Global, bytes: &[u8], path: Path) -> Result<usize, Memory>
    ensures { IfOk result (λ at. at ≤ length bytes.now) }
{
    match place_of_table(alloc, bytes, path.bytes())? {
        Some(at) => Ok(at),
        None => place_of_key(alloc, bytes, path.item(0).bytes()),
    }
}

// How many of the steps the document has; none where it is none.
fn depth_in(alloc: Global, bytes: &[u8], steps: &[Step<'_>]) -> Result<usize, Memory>
    ensures within { IfOk result (λ depth. depth ≤ length steps.now) }
    ensures deepest { IfOk result (λ depth. 0 < depth → depth < length steps.now →
        BeginsDocument bytes.now (take (suc depth) steps.now) false) }
{
    match open(alloc, bytes) {
        Ok(top) => Ok(depth_of(&top, steps)),
        Err(Stopped::Memory) => Err(Memory),
        Err(Stopped::Fault(_)) => Ok(0),
    }
}

// How many of the steps the table has.
fn depth_of(top: &Table, steps: &[Step<'_>]) -> usize
    ensures within { result ≤ length steps.now }
    ensures deepest { result < length steps.now →
        has (table_view top.now) (take (suc result) steps.now) ≡ false }
{
    for n in 0..steps.len() {
        if !has_entry(top, &steps[..n + 1]) {
            return n;
        }
    }
    steps.len()
}

// Whether the entry behind the steps is known to begin in the line of the byte.
fn begins_in_line(
    alloc: Global,
    bytes: &[u8],
    at: usize,
    steps: &[Step<'_>],
) -> Result<bool, Memory>
    requires { at ≤ length bytes.now }
    ensures { IfOk result (λ known. known ≡ true → BeginsInLine bytes.now at steps.now) }
{
    let start = at - before_in_line(bytes, at);
    let end = at + first_line(&bytes[at..]).len();
    let before = entry_in(alloc, &bytes[..start], steps)?;
    let through = entry_in(alloc, &bytes[..end], steps)?;
    Ok(before == Some(false) && through == Some(true))
}

// Whether these bytes have the entry once what they leave open is closed; none where they are then no
// document.
fn entry_in(alloc: Global, bytes: &[u8], steps: &[Step<'_>]) -> Result<Option<bool>, Memory>
    ensures { IfOk result (λ o. IfSome o (λ has. BeginsDocument bytes.now steps.now has)) }
{
    let closing = closing_of(alloc, bytes)?;
    if !closes(closing.as_slice()) {
        return Ok(None);
    }
    let text = text_of(alloc, &[bytes, closing.as_slice()])?;
    match open(alloc, text.as_slice()) {
        Ok(top) => Ok(Some(has_entry(&top, steps))),
        Err(Stopped::Memory) => Err(Memory),
        Err(Stopped::Fault(_)) => Ok(None),
    }
}

// Whether the bytes are line feeds and closing brackets.
fn closes(bytes: &[u8]) -> bool
    ensures { result ≡ list_all closes_what bytes.now }
{
    bytes.iter().all(|b| is_closing(*b))
}

fn is_closing(byte: u8) -> bool
    ensures { result ≡ closes_what byte }
{
    byte == b'\n' || byte == b']' || byte == b'}'
}
