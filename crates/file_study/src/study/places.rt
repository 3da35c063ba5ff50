//! Where the keys of a study's line stand in the study.

ghost use Rattle.std.specs.Prelude.{◌≡◌, ◌<◌, ◌≤◌, true, codes, option_map, length};
ghost use Rattle.toml.specs.{Data.no_members, View.view, View.table_view};
ghost use Rattle.model_line.specs.{Terminals.are_plain_names, ParamNames.name_at};
ghost use Rattle.model_line.specs.{ParamNames.pair_name};
ghost use Rattle.base_memory.specs.Gives.{Gives};
ghost use Rattle.file_line.specs.{Places.places_of, Lines.line_values, LineFiles.line_at};
ghost use Rattle.file_study.specs.study.LineTables.{table_or_empty, owner_places, terminal_places};
ghost use Rattle.file_study.specs.study.LineTables.{channel_places};

use crate::study::line::text_of_channel;
use base_memory::Stopped;
use file_document::keys::find;
use file_document::{DocumentFault, Path};
use file_line::{TablePlaces, line_of_table};
use model_line::{Channel, Line, Terminal, channel_name};
use std::alloc::Global;
use toml::{Table, Value};

// A table that may be absent; what is no table, or is not there, has no keys.
fn table_or_empty<'a>(none: &'a Table, value: Option<&'a Value>) -> &'a Table
    requires { table_view none.now ≡ no_members }
    ensures { table_view result.now
        ≡ table_or_empty (option_map (λ v. view v.now) value.entry) }
{
    let Some(value) = value else {
        return none;
    };
    match value {
        Value::Table(table) => table,
        _ => none,
    }
}

// What an owner has under its own name stands there, and all else of it among the defaults.
fn owner_places<'a>(none: &'a Table, kind: &str, top: &'a Table, name: &str) -> TablePlaces<'a>
    requires { table_view none.now ≡ no_members }
    ensures { places_of result ≡ owner_places kind.now (table_view top.now) name.now }
{
    let all = table_or_empty(none, find(top, kind));
    TablePlaces {
        own_path: Path::root().key(kind.as_bytes()).key(name.as_bytes()),
        own: table_or_empty(none, find(all, name)),
        path: Path::root().key(b"default").key(kind.as_bytes()),
    }
}

// Where the keys of terminal k stand.
fn of_terminal<'a>(
    none: &'a Table,
    terminals: &[Terminal],
    k: u32,
    top: &'a Table,
) -> TablePlaces<'a>
    requires none { table_view none.now ≡ no_members }
    requires plain { are_plain_names terminals.now ≡ true }
    requires within { k < length terminals.now }
    ensures { places_of result
        ≡ owner_places (codes "terminal") (table_view top.now) (name_at terminals.now k) }
{
    let name = terminals[k as usize].name.plain_text();
    owner_places(none, "terminal", top, name)
}

// Where those of a channel stand.
fn of_channel<'a>(
    none: &'a Table,
    terminals: &[Terminal],
    channel: Channel,
    top: &'a Table,
) -> TablePlaces<'a>
    requires none { table_view none.now ≡ no_members }
    requires plain { are_plain_names terminals.now ≡ true }
    requires from { channel.from < length terminals.now }
    requires to { channel.to < length terminals.now }
    ensures { places_of result
        ≡ owner_places (codes "channel") (table_view top.now) (pair_name terminals.now channel) }
{
    let name = channel_name(terminals, channel);
    owner_places(none, "channel", top, text_of_channel(&name))
}

fn line_of_two<'a>(
    alloc: Global,
    none: &'a Table,
    terminals: &[Terminal],
    top: &'a Table,
    table: &Table,
) -> Result<Line, Stopped<DocumentFault>>
    requires none { table_view none.now ≡ no_members }
    requires plain { are_plain_names terminals.now ≡ true }
    requires count { length terminals.now ≡ 2 }
    ensures { Gives line_values result
        (line_at (terminal_places terminals.now (table_view top.now))
        (channel_places terminals.now (table_view top.now)) (table_view table.now)) }
{
    let one = of_terminal(none, terminals, 0, top);
    let other = of_terminal(none, terminals, 1, top);
    let there = of_channel(none, terminals, Channel { from: 0, to: 1 }, top);
    let back = of_channel(none, terminals, Channel { from: 1, to: 0 }, top);
    line_of_table(alloc, &[one, other], &[there, back], table)
}

fn line_of_three<'a>(
    alloc: Global,
    none: &'a Table,
    terminals: &[Terminal],
    top: &'a Table,
    table: &Table,
) -> Result<Line, Stopped<DocumentFault>>
    requires none { table_view none.now ≡ no_members }
    requires plain { are_plain_names terminals.now ≡ true }
    requires count { length terminals.now ≡ 3 }
    ensures { Gives line_values result
        (line_at (terminal_places terminals.now (table_view top.now))
        (channel_places terminals.now (table_view top.now)) (table_view table.now)) }
{
    let first = of_terminal(none, terminals, 0, top);
    let second = of_terminal(none, terminals, 1, top);
    let third = of_terminal(none, terminals, 2, top);
    let channels = [
        of_channel(none, terminals, Channel { from: 0, to: 1 }, top),
        of_channel(none, terminals, Channel { from: 0, to: 2 }, top),
        of_channel(none, terminals, Channel { from: 1, to: 0 }, top),
        of_channel(none, terminals, Channel { from: 1, to: 2 }, top),
        of_channel(none, terminals, Channel { from: 2, to: 0 }, top),
        of_channel(none, terminals, Channel { from: 2, to: 1 }, top),
    ];
    line_of_table(alloc, &[first, second, third], &channels, table)
}

/// The line of the table that a study comes to, the keys of which stand in the study.
pub fn placed_line(
    alloc: Global,
    terminals: &[Terminal],
    top: &Table,
    table: &Table,
) -> Result<Line, Stopped<DocumentFault>>
    requires plain { are_plain_names terminals.now ≡ true }
    requires count { (2 ≤ length terminals.now) × (length terminals.now ≤ 3) }
    ensures { Gives line_values result
        (line_at (terminal_places terminals.now (table_view top.now))
        (channel_places terminals.now (table_view top.now)) (table_view table.now)) }
{
    let none = Table::new(alloc);
    if terminals.len() == 2 {
        line_of_two(alloc, &none, terminals, top, table)
    } else {
        line_of_three(alloc, &none, terminals, top, table)
    }
}
