//! The values that stand at the top of a line file.

ghost use Rattle.std.specs.Prelude.{◌≡◌, ◌≤◌, [], IfOk, length};
ghost use Rattle.toml.specs.View.{table_view, items_view};
ghost use Rattle.base_memory.specs.Gives.{seen};
ghost use Rattle.file_line.specs.Lines.{values_of, scheme_named, scheme_of, zone1_trip_of, head_of};
ghost use Rattle.file_line.specs.Lines.{terminal_items, channel_items};

use crate::draft::Draft;
use file_document::keys::{counted, find, flag, items, number, text};
use file_document::{DocumentFault, Path};
use model_line::Scheme;
use std::alloc::Global;
use toml::{Table, Value};

fn named(text: &str) -> Option<Scheme>
    ensures { result ≡ scheme_named text.now }
{
    match text {
        "pott" => Some(Scheme::Pott),
        "putt" => Some(Scheme::Putt),
        "dcb" => Some(Scheme::Dcb),
        "dcub" => Some(Scheme::Dcub),
        "dtt" => Some(Scheme::Dtt),
        _ => None,
    }
}

#[tactic(auto, unfolding(crate::specs::Lines::scheme_of))]
fn scheme(table: &Table) -> Result<Scheme, DocumentFault>
    ensures { result ≡ scheme_of (table_view table.now) }
{
    match named(text(Path::root(), "scheme", table)?) {
        Some(scheme) => Ok(scheme),
        None => Err(DocumentFault::Range(Path::root().key(b"scheme"))),
    }
}

#[tactic(auto, unfolding(crate::specs::Lines::zone1_trip_of))]
fn zone1_trip(table: &Table) -> Result<bool, DocumentFault>
    ensures { result ≡ zone1_trip_of (table_view table.now) }
{
    flag(Path::root().key(b"zone1_trip"), find(table, "zone1_trip"))
}

/// The line with the values that stand at the top of the file.
#[tactic(auto, unfolding(crate::specs::Lines::head_of))]
pub fn head(alloc: Global, table: &Table) -> Result<Draft, DocumentFault>
    ensures values { seen values_of result ≡ head_of (table_view table.now) }
    ensures empty { IfOk result
        (λ d. (d.terminals.items ≡ []) × (d.channels.items ≡ []) × (d.intervals.items ≡ [])) }
{
    let tick_us = number(Path::root(), "tick_us", 1, 1_000_000, table)?;
    let horizon = number(Path::root(), "horizon", 1, 4000, table)?;
    let scheme = scheme(table)?;
    let zone1_trip = zone1_trip(table)?;
    Ok(Draft {
        tick_us,
        horizon,
        scheme,
        zone1_trip,
        terminals: Vec::new(alloc),
        channels: Vec::new(alloc),
        intervals: Vec::new(alloc),
    })
}

/// The tables of the terminals: two or three.
#[tactic(auto, unfolding(crate::specs::Lines::terminal_items))]
pub fn terminal_tables(table: &Table) -> Result<&[Value], DocumentFault>
    ensures items { seen (λ vs. items_view vs.now) result ≡ terminal_items (table_view table.now) }
    ensures count { IfOk result (λ vs. (2 ≤ length vs.now) × (length vs.now ≤ 3)) }
{
    let path = Path::root().key(b"terminal");
    counted(path, 2, 3, items(Path::root(), "terminal", table)?)
}

/// The tables of the channels.
pub fn channel_tables(table: &Table) -> Result<&[Value], DocumentFault>
    ensures { seen (λ vs. items_view vs.now) result ≡ channel_items (table_view table.now) }
{
    items(Path::root(), "channel", table)
}
