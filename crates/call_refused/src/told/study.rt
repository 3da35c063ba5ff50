//! Of a study that is refused, and of a map of recorders.

ghost use Rattle.std.specs.Prelude.{◌≤◌, IfOk, IfSome, length};
ghost use Rattle.file_document.specs.Faults.{place_of};
ghost use Rattle.call_refused.specs.told.Told.{IsToldAt, IsToldOf};

use crate::places::{place_of_fault, place_of_key};
use crate::told::document::{at_key, refused_toml, unknown_key};
use crate::words::maps::{map_keys, map_others, map_said};
use crate::words::near::study_keys;
use crate::words::studies::study_said;
use crate::words::value::value_at;
use base_memory::Memory;
use base_text::pieces::text_of;
use file_document::DocumentFault;
use itoa::Buffer;
use std::alloc::Global;

/// The line of a fault of a study.
pub fn refused_study(
    alloc: Global,
    name: &str,
    bytes: &[u8],
    fault: &DocumentFault,
) -> Result<Vec<u8>, Memory>
    ensures told { IfOk result (λ text. IsToldAt name.now bytes.now text.items) }
    // It tells of the place of what the fault names.
    ensures own { IfOk result (λ text. IfSome (place_of fault.now) (λ path.
        IsToldOf name.now bytes.now path text.items)) }
{
    match fault.place() {
        Some(path) => refused_key(alloc, name, bytes, fault, path.bytes()),
        None => refused_toml(alloc, name, bytes),
    }
}

fn refused_key(
    alloc: Global,
    name: &str,
    bytes: &[u8],
    fault: &DocumentFault,
    path: &[u8],
) -> Result<Vec<u8>, Memory>
    ensures told { IfOk result (λ text. IsToldAt name.now bytes.now text.items) }
    ensures own { IfOk result (λ text. IsToldOf name.now bytes.now path.now text.items) }
{
    let at = place_of_fault(alloc, bytes, path)?;
    match fault {
        DocumentFault::Unknown(_) => {
            unknown_key(alloc, name, bytes, at, path, study_keys(path), others(path))
        }
        _ => {
            let said = study_said(fault, path, value_at(bytes, at));
            at_key(alloc, name, bytes, at, path, said)
        }
    }
}

// What may stand in a table beside its keys.
fn others(path: &[u8]) -> &'static str {
    if path.starts_with(b"fault") {
        ", or the name of a terminal"
    } else {
        ""
    }
}

// The line of a fault of a map, which names this path.
fn refused_map_key(
    alloc: Global,
    name: &str,
    bytes: &[u8],
    fault: &DocumentFault,
    path: &[u8],
) -> Result<Vec<u8>, Memory>
    ensures told { IfOk result (λ text. IsToldAt name.now bytes.now text.items) }
    ensures own { IfOk result (λ text. IsToldOf name.now bytes.now path.now text.items) }
{
    let at = place_of_fault(alloc, bytes, path)?;
    match fault {
        DocumentFault::Unknown(_) => {
            unknown_key(
                alloc,
                name,
                bytes,
                at,
                path,
                map_keys(path),
                map_others(path),
            )
        }
        _ => at_key(alloc, name, bytes, at, path, map_said(fault, path)),
    }
}

/// The line of a fault of a map of recorders.
pub fn refused_map(
    alloc: Global,
    name: &str,
    bytes: &[u8],
    fault: &DocumentFault,
) -> Result<Vec<u8>, Memory>
    ensures told { IfOk result (λ text. IsToldAt name.now bytes.now text.items) }
    // It tells of the place of what the fault names.
    ensures own { IfOk result (λ text. IfSome (place_of fault.now) (λ path.
        IsToldOf name.now bytes.now path text.items)) }
{
    match fault.place() {
        Some(path) => refused_map_key(alloc, name, bytes, fault, path.bytes()),
        None => refused_toml(alloc, name, bytes),
    }
}

/// Where the key of an array's item stands, as `terminal[0].name`.
pub fn place_of_item(
    alloc: Global,
    bytes: &[u8],
    array: &[u8],
    index: usize,
    key: &[u8],
) -> Result<usize, Memory>
    ensures { IfOk result (λ at. at ≤ length bytes.now) }
{
    let mut digits = Buffer::new();
    let number = digits.format(index).as_bytes();
    let path = text_of(alloc, &[array, b"[", number, b"].", key])?;
    place_of_key(alloc, bytes, &path)
}
