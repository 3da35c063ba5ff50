//! The table of a terminal.

ghost use Rattle.std.specs.Prelude.{◌≡◌, ◌<◌, ◌≤◌, ◌+◌, IfOk, OnOk, true, codes, map, length};
ghost use Rattle.model_line.specs.PlainNames.{is_plain_name};
ghost use Rattle.std.specs.Str.{bytes_eq};
ghost use Rattle.std.specs.List.{list_any};
ghost use Rattle.toml.specs.View.{view, table_view, items_view};
ghost use Rattle.base_memory.specs.Gives.{Becomes};
ghost use Rattle.file_line.specs.TerminalTables.{terminal_keys, name_in, name_at, element_times};
ghost use Rattle.file_line.specs.TerminalTables.{elements_times, permissive_times, scheme_times};
ghost use Rattle.file_line.specs.TerminalTables.{terminal_named, terminal_at, terminals_at};
ghost use Rattle.file_line.specs.{Lines.values_of, Places.places_of, Places.places_in};
ghost use Rattle.toml.specs.Data.{no_members};

use crate::draft::Draft;
use crate::places::{TablePlaces, in_item};
use crate::times::{TableTimes, group_key};
use base_memory::Stopped;
use file_document::keys::{find, table_of};
use file_document::{DocumentFault, Path};
use model_line::{
    Bounds, Name, REVERSE_SETTINGS, Scheme, Setting, Terminal, UNDERVOLTAGE_SETTINGS,
    ZONE1_SETTINGS, ZONE2_SETTINGS, guard_settings, is_plain, may_have_flags, scheme_settings,
    weak_settings,
};
use std::alloc::Global;
use toml::{Table, Value};

fn keys(scheme: Scheme) -> &'static [&'static str]
    ensures { map (λ name. name.now) result.now ≡ terminal_keys scheme }
{
    match scheme {
        Scheme::Pott | Scheme::Dcub => &["name", "z1", "z2", "rv", "uv", "reversal", "echo"],
        Scheme::Putt => &["name", "z1", "z2", "rv", "uv"],
        Scheme::Dcb => &["name", "z1", "z2", "rv", "uv", "block"],
        Scheme::Dtt => &["name", "z1", "z2", "rv", "uv", "transfer"],
    }
}

fn is_taken(before: &[Terminal], name: &str) -> bool
    ensures { result ≡ list_any (λ t. bytes_eq t.name name.now) before.now }
{
    before
        .iter()
        .any(|terminal| terminal.name.bytes() == name.as_bytes())
}

/// A plain name that no terminal before has.
pub fn new_name(path: Path, before: &[Terminal], text: &str) -> Result<Name, DocumentFault>
    ensures is { result ≡ name_in path before.now text.now }
    ensures plain { IfOk result (λ n. is_plain_name n ≡ true) }
{
    if !is_plain(text.as_bytes()) {
        return Err(DocumentFault::BadName(path));
    }
    if is_taken(before, text) {
        return Err(DocumentFault::Twice(path));
    }
    Ok(Name::plain(text.as_bytes()))
}

#[tactic(auto, unfolding(crate::specs::TerminalTables::name_at))]
fn name(places: &TablePlaces<'_>, before: &[Terminal], table: &Table) -> Result<Name, DocumentFault>
    ensures { result ≡ name_at (places_of places.now) before.now (table_view table.now) }
{
    let text = places.text("name", table)?;
    new_name(places.key("name"), before, text)
}

fn element(
    times: &TableTimes,
    places: &TablePlaces<'_>,
    settings: &[Setting],
    intervals: &mut Vec<Bounds>,
) -> Result<(), Stopped<DocumentFault>>
    ensures { Becomes result intervals.new.items
        (element_times (places_of places.now) settings.now times.now.unit (table_view times.now.table.now)
        intervals.old.items) }
{
    let none = Bounds {
        least: 0,
        greatest: 0,
    };
    times.optional(places, &[none, none], settings, intervals)
}

#[tactic(auto, unfolding(crate::specs::TerminalTables::elements_times))]
fn elements(
    times: &TableTimes,
    places: &TablePlaces<'_>,
    intervals: &mut Vec<Bounds>,
) -> Result<(), Stopped<DocumentFault>>
    ensures { Becomes result intervals.new.items
        (elements_times (places_of places.now) times.now.unit (table_view times.now.table.now)
        intervals.old.items) }
{
    element(times, places, ZONE1_SETTINGS, intervals)?;
    element(times, places, ZONE2_SETTINGS, intervals)?;
    element(times, places, REVERSE_SETTINGS, intervals)?;
    element(times, places, UNDERVOLTAGE_SETTINGS, intervals)
}

#[tactic(auto, unfolding(crate::specs::TerminalTables::permissive_times))]
fn permissive(
    times: &TableTimes,
    places: &TablePlaces<'_>,
    intervals: &mut Vec<Bounds>,
) -> Result<(), Stopped<DocumentFault>>
    ensures { Becomes result intervals.new.items
        (permissive_times (places_of places.now) times.now.unit (table_view times.now.table.now)
        intervals.old.items) }
{
    times.optional(places, &[], guard_settings(true), intervals)?;
    times.optional(places, &[], weak_settings(true), intervals)
}

fn by_scheme(
    scheme: Scheme,
    times: &TableTimes,
    places: &TablePlaces<'_>,
    intervals: &mut Vec<Bounds>,
) -> Result<(), Stopped<DocumentFault>>
    ensures { Becomes result intervals.new.items
        (scheme_times scheme (places_of places.now) times.now.unit (table_view times.now.table.now)
        intervals.old.items) }
{
    if may_have_flags(scheme) {
        permissive(times, places, intervals)
    } else {
        times.required(places, scheme_settings(scheme), intervals)
    }
}

fn named(scheme: Scheme, table: &Table, name: Name) -> Terminal
    ensures { result ≡ terminal_named scheme (table_view table.now) name }
{
    Terminal {
        name,
        weak: may_have_flags(scheme) && find(table, group_key(weak_settings(true))).is_some(),
        guard: may_have_flags(scheme) && find(table, group_key(guard_settings(true))).is_some(),
    }
}

/// The line with one more terminal, from a table whose keys stand there.
#[tactic(auto, unfolding(crate::specs::TerminalTables::terminal_at))]
pub fn terminal(
    unit: u32,
    places: &TablePlaces<'_>,
    value: &Value,
    line: &mut Draft,
) -> Result<(), Stopped<DocumentFault>>
    requires some { 0 < unit }
    requires few { unit ≤ 1000000 }
    ensures { Becomes result (values_of line.new)
        (terminal_at unit (places_of places.now) (view value.now) (values_of line.old)) }
{
    let table = table_of(places.path, value)?;
    places.only(keys(line.scheme), table)?;
    let name = name(places, &line.terminals, table)?;
    let times = TableTimes { unit, table };
    elements(&times, places, &mut line.intervals)?;
    by_scheme(line.scheme, &times, places, &mut line.intervals)?;
    line.terminals.push(named(line.scheme, table, name))?;
    Ok(())
}

// The line with one more terminal, that of item i.
fn item(
    told: &[TablePlaces<'_>],
    none: &Table,
    unit: u32,
    i: usize,
    value: &Value,
    line: &mut Draft,
) -> Result<(), Stopped<DocumentFault>>
    requires some { 0 < unit }
    requires few { unit ≤ 1000000 }
    requires none { table_view none.now ≡ no_members }
    ensures { Becomes result (values_of line.new)
        (terminal_at unit (places_in (codes "terminal") (map places_of told.now) i)
        (view value.now) (values_of line.old)) }
{
    match told.get(i) {
        Some(places) => terminal(unit, places, value, line),
        None => terminal(unit, &in_item(none, "terminal", i), value, line),
    }
}

/// The line with these terminals, the keys of whose tables stand there.
pub fn terminals(
    alloc: Global,
    told: &[TablePlaces<'_>],
    unit: u32,
    values: &[Value],
    line: &mut Draft,
) -> Result<(), Stopped<DocumentFault>>
    requires some { 0 < unit }
    requires few { unit ≤ 1000000 }
    ensures values { Becomes result (values_of line.new)
        (terminals_at (map places_of told.now) unit (items_view values.now)
        (values_of line.old)) }
    ensures count { OnOk result
        (length line.new.terminals.items
        ≡ length line.old.terminals.items + length values.now) }
    ensures channels { OnOk result (line.new.channels.items ≡ line.old.channels.items) }
{
    let none = Table::new(alloc);
    for (i, value) in values.iter().enumerate() {
        item(told, &none, unit, i, value, line)?;
    }
    Ok(())
}
