//! The digital channels that tell a signal.

ghost use Rattle.std.specs.Prelude.{◌≡◌, [], ◌∷◌, ◌++◌, map};
ghost use Rattle.toml.specs.View.{view, table_view, items_view};
ghost use Rattle.base_memory.specs.Gives.{Becomes, Gives};
ghost use Rattle.file_records.specs.map.Sources.{source_values, plain_source, text_source, table_source};
ghost use Rattle.file_records.specs.map.Sources.{source_in, sources_in, one_source, sources_of};

use crate::map::source::{ChannelName, Signal, Source};
use base_memory::Stopped;
use base_text::store::number;
use file_document::keys::{find, flag, only, text};
use file_document::{DocumentFault, Path};
use std::alloc::Global;
use toml::{Table, Value};

// A channel's id, or `#` and its number.
fn plain_source(
    alloc: Global,
    path: Path,
    signal: Signal,
    inverted: bool,
    text: &[u8],
) -> Result<Source, Stopped<DocumentFault>>
    ensures { Gives source_values result (plain_source path signal inverted text.now) }
{
    if text.is_empty() {
        return Err(Stopped::Fault(DocumentFault::BadName(path)));
    }
    if text[0] != b'#' {
        let channel = ChannelName::Id(Vec::from_slice(alloc, text)?);
        return Ok(Source {
            signal,
            channel,
            inverted,
        });
    }
    match number(&text[1..]) {
        Some(n) if n > 0 => {
            let channel = ChannelName::Number(n);
            Ok(Source {
                signal,
                channel,
                inverted,
            })
        }
        _ => Err(Stopped::Fault(DocumentFault::BadName(path))),
    }
}

// Such a text, behind a `!` where it is inverted.
fn text_source(
    alloc: Global,
    path: Path,
    signal: Signal,
    text: &[u8],
) -> Result<Source, Stopped<DocumentFault>>
    ensures { Gives source_values result (text_source path signal text.now) }
{
    if text.is_empty() {
        return Err(Stopped::Fault(DocumentFault::BadName(path)));
    }
    if text[0] == b'!' {
        plain_source(alloc, path, signal, true, &text[1..])
    } else {
        plain_source(alloc, path, signal, false, text)
    }
}

// `{ id = .., inverted = .. }`.
#[tactic(auto, unfolding(crate::specs::map::Sources::table_source))]
fn table_source(
    alloc: Global,
    path: Path,
    signal: Signal,
    table: &Table,
) -> Result<Source, Stopped<DocumentFault>>
    ensures { Gives source_values result (table_source path signal (table_view table.now)) }
{
    only(path, &["id", "inverted"], &[], table)?;
    let id = text(path, "id", table)?;
    let inverted = flag(path.key(b"inverted"), find(table, "inverted"))?;
    let channel = ChannelName::Id(Vec::from_slice(alloc, id.as_bytes())?);
    Ok(Source {
        signal,
        channel,
        inverted,
    })
}

fn source(
    alloc: Global,
    path: Path,
    signal: Signal,
    value: &Value,
) -> Result<Source, Stopped<DocumentFault>>
    ensures { Gives source_values result (source_in path signal (view value.now)) }
{
    match value {
        Value::String(text) => text_source(alloc, path, signal, text.as_bytes()),
        Value::Table(table) => table_source(alloc, path, signal, table),
        _ => Err(Stopped::Fault(DocumentFault::WrongKind(path))),
    }
}

// The sources of an array.
fn push_items(
    alloc: Global,
    path: Path,
    signal: Signal,
    items: &[Value],
    sources: &mut Vec<Source>,
) -> Result<(), Stopped<DocumentFault>>
    ensures { Becomes result (map source_values sources.new.items)
        (sources_in path signal 0 (items_view items.now) (map source_values sources.old.items)) }
{
    for (i, value) in items.iter().enumerate() {
        let source = source(alloc, path.item(i), signal, value)?;
        sources.push(source)?;
    }
    Ok(())
}

#[tactic(auto, unfolding(crate::specs::map::Sources::one_source))]
fn push_one(
    alloc: Global,
    path: Path,
    signal: Signal,
    value: &Value,
    sources: &mut Vec<Source>,
) -> Result<(), Stopped<DocumentFault>>
    ensures { Becomes result (map source_values sources.new.items)
        (one_source path signal (view value.now) (map source_values sources.old.items)) }
{
    let source = source(alloc, path, signal, value)?;
    sources.push(source)?;
    Ok(())
}

/// Adds the sources of a value: one, or an array of them.
pub fn push_sources(
    alloc: Global,
    path: Path,
    signal: Signal,
    value: &Value,
    sources: &mut Vec<Source>,
) -> Result<(), Stopped<DocumentFault>>
    ensures { Becomes result (map source_values sources.new.items)
        (sources_of path signal (view value.now) (map source_values sources.old.items)) }
{
    match value {
        Value::Array(items) => push_items(alloc, path, signal, items.as_slice(), sources),
        _ => push_one(alloc, path, signal, value, sources),
    }
}
