//! Of a line file that is refused.

ghost use Rattle.std.specs.Prelude.{IfOk, IfSome};
ghost use Rattle.file_document.specs.Faults.{place_of};
ghost use Rattle.call_refused.specs.told.Told.{IsToldAt, IsToldOf};

use crate::places::{place_of_fault, place_of_key};
use crate::told::document::{at_key, refused_toml, unknown_key};
use crate::words::lines::line_said;
use crate::words::near::line_keys;
use base_memory::Memory;
use base_text::pieces::text_of;
use file_document::DocumentFault;
use model_line::Name;
use std::alloc::Global;

/// The line of a fault of a line file.
pub fn refused_line(
    alloc: Global,
    name: &str,
    bytes: &[u8],
    fault: &DocumentFault,
) -> Result<Vec<u8>, Memory>
    ensures told { IfOk result (λ text. IsToldAt name.now bytes.now text.items) }
    // It tells of the place of what the fault names.
    ensures own { IfOk result (λ text. IfSome (place_of fault.now) (λ path.
        IsToldOf name.now bytes.now path text.items)) }
{
    match fault.place() {
        Some(path) => refused_key(alloc, name, bytes, fault, path.bytes()),
        None => match fault {
            DocumentFault::Channels(from, to) => no_channel(alloc, name, bytes, from, to),
            _ => refused_toml(alloc, name, bytes),
        },
    }
}

fn refused_key(
    alloc: Global,
    name: &str,
    bytes: &[u8],
    fault: &DocumentFault,
    path: &[u8],
) -> Result<Vec<u8>, Memory>
    ensures told { IfOk result (λ text. IsToldAt name.now bytes.now text.items) }
    ensures own { IfOk result (λ text. IsToldOf name.now bytes.now path.now text.items) }
{
    let at = place_of_fault(alloc, bytes, path)?;
    match fault {
        DocumentFault::Unknown(_) => unknown_key(alloc, name, bytes, at, path, line_keys(path), ""),
        _ => at_key(alloc, name, bytes, at, path, line_said(fault, path)),
    }
}

// The line of two terminals without a channel, at the first channel that there is.
fn no_channel(
    alloc: Global,
    name: &str,
    bytes: &[u8],
    from: &Name,
    to: &Name,
) -> Result<Vec<u8>, Memory>
    ensures { IfOk result (λ text. IsToldAt name.now bytes.now text.items) }
{
    let at = place_of_key(alloc, bytes, b"channel[0]")?;
    let path = text_of(alloc, &[from.bytes(), b">", to.bytes()])?;
    let said = line_said(&DocumentFault::Channels(*from, *to), b"channel");
    at_key(alloc, name, bytes, at, &path, said)
}
