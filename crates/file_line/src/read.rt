//! Reading a line file.

ghost use Rattle.std.specs.Prelude.{◌≡◌, ◌<◌, ◌≤◌, [], Ok, IfOk, OnOk, map};
ghost use Rattle.toml.specs.View.{table_view};
ghost use Rattle.base_memory.specs.Gives.{Gives, Becomes};
ghost use Rattle.model_line.specs.Making.{MakesLine};
ghost use Rattle.file_line.specs.Lines.{line_values, values_of};
ghost use Rattle.file_line.specs.LineFiles.{tables_in, line_at, line_of};
ghost use Rattle.file_line.specs.Places.{places_of};

use crate::channel::channels;
use crate::draft::Draft;
use crate::head::{channel_tables, head, terminal_tables};
use crate::pairs::all_joined;
use crate::places::TablePlaces;
use crate::terminal::terminals;
use crate::times::units;
use base_memory::Stopped;
use file_document::keys::{number, only, open};
use file_document::{DocumentFault, Path};
use model_line::Line;
use model_line::laws::settings_are_counted;
use std::alloc::Global;
use toml::Table;

const TOP_KEYS: &[&str] = &[
    "version",
    "tick_us",
    "horizon",
    "scheme",
    "zone1_trip",
    "terminal",
    "channel",
];

// The tables of the terminals and channels, read into a line that has its head alone.
#[tactic(auto, unfolding(crate::specs::LineFiles::tables_in))]
fn read_tables(
    alloc: Global,
    terminal_places: &[TablePlaces<'_>],
    channel_places: &[TablePlaces<'_>],
    unit: u32,
    table: &Table,
    line: &mut Draft,
) -> Result<(), Stopped<DocumentFault>>
    requires some { 0 < unit }
    requires few { unit ≤ 1000000 }
    requires no_terminal { line.old.terminals.items ≡ [] }
    requires no_channel { line.old.channels.items ≡ [] }
    requires no_interval { line.old.intervals.items ≡ [] }
    ensures values { Becomes result (values_of line.new)
        (tables_in (map places_of terminal_places.now) (map places_of channel_places.now) unit
        (table_view table.now) (values_of line.old)) }
    ensures makes { OnOk result (MakesLine line.new.tick_us line.new.horizon line.new.scheme
        line.new.terminals.items line.new.channels.items line.new.intervals.items) }
{
    settings_are_counted();
    let terminal_values = terminal_tables(table)?;
    let channel_values = channel_tables(table)?;
    terminals(alloc, terminal_places, unit, terminal_values, line)?;
    channels(alloc, channel_places, unit, channel_values, line)?;
    all_joined(&line.terminals, &line.channels)?;
    Ok(())
}

#[tactic(auto, unfolding(crate::specs::LineFiles::line_at))]
fn read_table(
    alloc: Global,
    terminal_places: &[TablePlaces<'_>],
    channel_places: &[TablePlaces<'_>],
    table: &Table,
) -> Result<Draft, Stopped<DocumentFault>>
    ensures values { Gives values_of result
        (line_at (map places_of terminal_places.now) (map places_of channel_places.now)
        (table_view table.now)) }
    ensures makes { IfOk result
        (λ d. MakesLine d.tick_us d.horizon d.scheme d.terminals.items d.channels.items
        d.intervals.items) }
{
    let version = number(Path::root(), "version", 1, 2, table)?;
    only(Path::root(), TOP_KEYS, &[], table)?;
    let mut line = head(alloc, table)?;
    read_tables(
        alloc,
        terminal_places,
        channel_places,
        units(version, line.tick_us),
        table,
        &mut line,
    )?;
    Ok(line)
}

// The line of what was read.
fn made(alloc: Global, draft: Draft) -> Result<Line, Stopped<DocumentFault>>
    requires { MakesLine draft.tick_us draft.horizon draft.scheme draft.terminals.items
        draft.channels.items draft.intervals.items }
    ensures { Gives line_values result (Ok (values_of draft)) }
{
    let line = Line::new(
        alloc,
        draft.tick_us,
        draft.horizon,
        draft.scheme,
        draft.zone1_trip,
        draft.terminals,
        draft.channels,
        &draft.intervals,
    )?;
    Ok(line)
}

/// The line that a document's table says, or its first fault: the keys of its terminals and channels
/// stand where it is told, and where that is told of fewer, the others' in the table itself.
pub fn line_of_table(
    alloc: Global,
    terminal_places: &[TablePlaces<'_>],
    channel_places: &[TablePlaces<'_>],
    table: &Table,
) -> Result<Line, Stopped<DocumentFault>>
    ensures { Gives line_values result
        (line_at (map places_of terminal_places.now) (map places_of channel_places.now)
        (table_view table.now)) }
{
    let draft = read_table(alloc, terminal_places, channel_places, table)?;
    made(alloc, draft)
}

/// The line of a line file, of version 1 or 2, or the first fault of the file.
///
/// `NotToml` comes where the bytes are no TOML document. Every other fault tells the first place in
/// the file, in the order in which a line is read, that is not as it has to be.
#[tactic(auto, unfolding(crate::specs::LineFiles::line_of))]
pub fn read_line(alloc: Global, bytes: &[u8]) -> Result<Line, Stopped<DocumentFault>>
    ensures { Gives line_values result (line_of bytes.now) }
{
    let table = open(alloc, bytes)?;
    line_of_table(alloc, &[], &[], &table)
}
