//! The recorders of a map.

ghost use Rattle.std.specs.Prelude.{◌≡◌, ◌<◌, ◌≤◌, ◌^◌, [], IfOk, map, length, option_map};
ghost use Rattle.toml.specs.View.{view, table_view, items_view};
ghost use Rattle.model_names.specs.NumbersByName.{terminal_named};
ghost use Rattle.base_memory.specs.Gives.{Gives};
ghost use Rattle.file_records.specs.map.Recorders.{recorder_values, terminal_at, config_in};
ghost use Rattle.file_line.specs.ChannelTables.{terminal_in};
ghost use Rattle.file_records.specs.map.Recorders.{config_at, order_named, order_in, order_or_none};
ghost use Rattle.file_records.specs.map.Recorders.{recorder_at, recorder_in, recorder_keys, recorders_in};

use crate::map::file_names::{is_config, is_one_file};
use crate::map::instant::shifted;
use crate::map::recorder::Recorder;
use crate::map::signals::signals;
use base_memory::Stopped;
use file_comtrade::DateOrder;
use file_document::keys::{find, only, table_of, text, text_of};
use file_document::{DocumentFault, Path};
use model_line::Line;
use model_names::terminal_of_name;
use std::alloc::Global;
use toml::{Table, Value};

// The keys of a recorder.
fn recorder_keys() -> &'static [&'static str]
    ensures { map (λ name. name.now) result.now ≡ recorder_keys }
{
    &[
        "terminal", "config", "date", "shift_us", "z1", "z2", "rv", "uv", "cur", "loss", "key",
        "trip",
    ]
}

// A terminal of the line.
fn terminal_in(line: &Line, path: Path, name: &[u8]) -> Result<u32, DocumentFault>
    ensures value { result ≡ terminal_in path (terminal_named line.now name.now) }
    ensures within { IfOk result (λ k. k < length line.now.terminals.items) }
{
    match terminal_of_name(line, name) {
        Some(k) => Ok(k),
        None => Err(DocumentFault::BadName(path)),
    }
}

#[tactic(auto, unfolding(crate::specs::map::Recorders::terminal_at))]
fn terminal(line: &Line, path: Path, table: &Table) -> Result<u32, DocumentFault>
    ensures value { result ≡ terminal_at line.now path (table_view table.now) }
    ensures within { IfOk result (λ k. k < length line.now.terminals.items) }
{
    let name = text(path, "terminal", table)?;
    terminal_in(line, path.key(b"terminal"), name.as_bytes())
}

// The name of a configuration, or of a record in one file.
fn config_in(alloc: Global, path: Path, name: &[u8]) -> Result<Vec<u8>, Stopped<DocumentFault>>
    ensures said { Gives (λ v. v.items) result (config_in path name.now) }
    ensures long { IfOk result (λ v. 4 ≤ length v.items) }
{
    if is_config(name) || is_one_file(name) {
        Ok(Vec::from_slice(alloc, name)?)
    } else {
        Err(Stopped::Fault(DocumentFault::BadName(path)))
    }
}

#[tactic(auto, unfolding(crate::specs::map::Recorders::config_at))]
fn config(alloc: Global, path: Path, table: &Table) -> Result<Vec<u8>, Stopped<DocumentFault>>
    ensures said { Gives (λ v. v.items) result (config_at path (table_view table.now)) }
    ensures long { IfOk result (λ v. 4 ≤ length v.items) }
{
    let name = text(path, "config", table)?;
    config_in(alloc, path.key(b"config"), name.as_bytes())
}

fn order_named(path: Path, text: &str) -> Result<Option<DateOrder>, DocumentFault>
    ensures { result ≡ order_named path text.now }
{
    match text {
        "dmy" => Ok(Some(DateOrder::DayFirst)),
        "mdy" => Ok(Some(DateOrder::MonthFirst)),
        _ => Err(DocumentFault::BadName(path)),
    }
}

#[tactic(auto, unfolding(crate::specs::map::Recorders::order_in))]
fn order_in(path: Path, value: &Value) -> Result<Option<DateOrder>, DocumentFault>
    ensures { result ≡ order_in path (view value.now) }
{
    let text = text_of(path, value)?;
    order_named(path, text)
}

fn order(path: Path, value: Option<&Value>) -> Result<Option<DateOrder>, DocumentFault>
    ensures { result ≡ order_or_none path (option_map (λ v. view v.now) value.entry) }
{
    match value {
        Some(value) => order_in(path, value),
        None => Ok(None),
    }
}

// The recorder that a table says, where tick 0 is at this instant.
#[tactic(auto, unfolding(crate::specs::map::Recorders::recorder_in))]
fn recorder_in(
    alloc: Global,
    line: &Line,
    start: u128,
    path: Path,
    table: &Table,
) -> Result<Recorder, Stopped<DocumentFault>>
    requires { start < 2 ^ 80 }
    ensures { Gives recorder_values result (recorder_in line.now start path (table_view table.now)) }
{
    let terminal = terminal(line, path, table)?;
    let config = config(alloc, path, table)?;
    let dates = order(path.key(b"date"), find(table, "date"))?;
    let start = shifted(path.key(b"shift_us"), start, find(table, "shift_us"))?;
    let signals = signals(alloc, line, path, terminal, table)?;
    Ok(Recorder {
        terminal,
        config,
        dates,
        start,
        signals,
    })
}

// A recorder, which has no other keys.
#[tactic(auto, unfolding(crate::specs::map::Recorders::recorder_at))]
fn recorder(
    alloc: Global,
    line: &Line,
    start: u128,
    path: Path,
    value: &Value,
) -> Result<Recorder, Stopped<DocumentFault>>
    requires { start < 2 ^ 80 }
    ensures { Gives recorder_values result (recorder_at line.now start path (view value.now)) }
{
    let table = table_of(path, value)?;
    only(path, recorder_keys(), &[], table)?;
    recorder_in(alloc, line, start, path, table)
}

/// The recorders of an array, where tick 0 is at this instant.
pub fn recorders_in(
    alloc: Global,
    line: &Line,
    start: u128,
    path: Path,
    items: &[Value],
) -> Result<Vec<Recorder>, Stopped<DocumentFault>>
    requires { start < 2 ^ 80 }
    ensures { Gives (λ v. map recorder_values v.items) result
        (recorders_in line.now start path 0 (items_view items.now) []) }
{
    let mut recorders = Vec::new(alloc);
    for (i, value) in items.iter().enumerate() {
        let recorder = recorder(alloc, line, start, path.item(i), value)?;
        recorders.push(recorder)?;
    }
    Ok(recorders)
}
