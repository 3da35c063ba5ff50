//! The table of a channel.

ghost use Rattle.std.specs.Prelude.{◌≡◌, ◌<◌, ◌≤◌, IfSome, OnOk, codes, map, length};
ghost use Rattle.std.specs.List.{list_any};
ghost use Rattle.toml.specs.View.{view, table_view, items_view};
ghost use Rattle.base_memory.specs.Gives.{Becomes};
ghost use Rattle.model_line.specs.Channels.{is_pair};
ghost use Rattle.file_line.specs.ChannelTables.{channel_keys, terminal_called, from_at, to_at};
ghost use Rattle.file_line.specs.ChannelTables.{ends_at, channel_at, channels_at};
ghost use Rattle.file_line.specs.{Lines.values_of, Places.places_of, Places.places_in};
ghost use Rattle.toml.specs.Data.{no_members};

use crate::draft::Draft;
use crate::places::{TablePlaces, in_item};
use crate::times::TableTimes;
use base_memory::Stopped;
use file_document::DocumentFault;
use file_document::keys::table_of;
use model_line::{Channel, Scheme, Setting, Terminal, receiver_settings};
use std::alloc::Global;
use toml::{Table, Value};

fn keys(scheme: Scheme) -> &'static [&'static str]
    ensures { map (λ name. name.now) result.now ≡ channel_keys scheme }
{
    match scheme {
        Scheme::Dcub => &["from", "to", "delay", "unblock"],
        Scheme::Pott | Scheme::Putt | Scheme::Dcb | Scheme::Dtt => &["from", "to", "delay"],
    }
}

// The place of the terminal of that name.
fn called(terminals: &[Terminal], name: &str) -> Option<usize>
    ensures place { result ≡ terminal_called terminals.now name.now }
    ensures within { IfSome result (λ k. k < length terminals.now) }
{
    terminals
        .iter()
        .position(|terminal| terminal.name.bytes() == name.as_bytes())
}

#[tactic(auto, unfolding(crate::specs::ChannelTables::from_at))]
fn from_end(
    places: &TablePlaces<'_>,
    terminals: &[Terminal],
    table: &Table,
) -> Result<u32, DocumentFault>
    requires few { length terminals.now ≤ 3 }
    ensures { result ≡ from_at (places_of places.now) terminals.now (table_view table.now) }
{
    match called(terminals, places.text("from", table)?) {
        Some(from) => Ok(from as u32),
        None => Err(DocumentFault::BadName(places.key("from"))),
    }
}

#[tactic(auto, unfolding(crate::specs::ChannelTables::to_at))]
fn to_end(
    places: &TablePlaces<'_>,
    terminals: &[Terminal],
    from: u32,
    table: &Table,
) -> Result<u32, DocumentFault>
    requires few { length terminals.now ≤ 3 }
    ensures { result ≡ to_at (places_of places.now) terminals.now from (table_view table.now) }
{
    match called(terminals, places.text("to", table)?) {
        Some(to) if to as u32 != from => Ok(to as u32),
        _ => Err(DocumentFault::BadName(places.key("to"))),
    }
}

/// Whether a channel leads from one terminal to the other.
pub fn has_pair(channels: &[Channel], from: u32, to: u32) -> bool
    ensures { result ≡ list_any (is_pair from to) channels.now }
{
    channels
        .iter()
        .any(|channel| channel.from == from && channel.to == to)
}

#[tactic(auto, unfolding(crate::specs::ChannelTables::ends_at))]
fn ends(
    places: &TablePlaces<'_>,
    terminals: &[Terminal],
    before: &[Channel],
    table: &Table,
) -> Result<Channel, DocumentFault>
    requires few { length terminals.now ≤ 3 }
    ensures { result ≡ ends_at (places_of places.now) terminals.now before.now (table_view table.now) }
{
    let from = from_end(places, terminals, table)?;
    let to = to_end(places, terminals, from, table)?;
    if has_pair(before, from, to) {
        return Err(DocumentFault::Twice(places.path));
    }
    Ok(Channel { from, to })
}

/// The line with one more channel, from a table whose keys stand there.
#[tactic(auto, unfolding(crate::specs::ChannelTables::channel_at))]
pub fn channel(
    unit: u32,
    places: &TablePlaces<'_>,
    value: &Value,
    line: &mut Draft,
) -> Result<(), Stopped<DocumentFault>>
    requires some { 0 < unit }
    requires few { unit ≤ 1000000 }
    requires terminals { length line.old.terminals.items ≤ 3 }
    ensures { Becomes result (values_of line.new)
        (channel_at unit (places_of places.now) (view value.now) (values_of line.old)) }
{
    let table = table_of(places.path, value)?;
    places.only(keys(line.scheme), table)?;
    let channel = ends(places, &line.terminals, &line.channels, table)?;
    let times = TableTimes { unit, table };
    let delay = times.time(places.key(Setting::Delay.key()), Setting::Delay, 1)?;
    line.intervals.push(delay)?;
    times.required(places, receiver_settings(line.scheme), &mut line.intervals)?;
    line.channels.push(channel)?;
    Ok(())
}

// The line with one more channel, that of item i.
fn item(
    told: &[TablePlaces<'_>],
    none: &Table,
    unit: u32,
    i: usize,
    value: &Value,
    line: &mut Draft,
) -> Result<(), Stopped<DocumentFault>>
    requires some { 0 < unit }
    requires few { unit ≤ 1000000 }
    requires none { table_view none.now ≡ no_members }
    requires terminals { length line.old.terminals.items ≤ 3 }
    ensures { Becomes result (values_of line.new)
        (channel_at unit (places_in (codes "channel") (map places_of told.now) i)
        (view value.now) (values_of line.old)) }
{
    match told.get(i) {
        Some(places) => channel(unit, places, value, line),
        None => channel(unit, &in_item(none, "channel", i), value, line),
    }
}

/// The line with these channels, the keys of whose tables stand there.
pub fn channels(
    alloc: Global,
    told: &[TablePlaces<'_>],
    unit: u32,
    values: &[Value],
    line: &mut Draft,
) -> Result<(), Stopped<DocumentFault>>
    requires some { 0 < unit }
    requires few { unit ≤ 1000000 }
    requires terminals { length line.old.terminals.items ≤ 3 }
    ensures values { Becomes result (values_of line.new)
        (channels_at (map places_of told.now) unit (items_view values.now)
        (values_of line.old)) }
    ensures terminals { OnOk result (line.new.terminals.items ≡ line.old.terminals.items) }
{
    let none = Table::new(alloc);
    for (i, value) in values.iter().enumerate() {
        item(told, &none, unit, i, value, line)?;
    }
    Ok(())
}
