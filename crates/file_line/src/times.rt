//! Times, as a line file writes them, and the tables that have only times.

ghost use Rattle.std.specs.Prelude.{◌≡◌, ◌<◌, ◌≤◌};
ghost use Rattle.toml.specs.View.{view, table_view, items_view};
ghost use Rattle.base_memory.specs.Gives.{Becomes};
ghost use Rattle.file_line.specs.Times.{units_per_tick, in_ticks, interval_in, ends_in, time_in};
ghost use Rattle.file_line.specs.Times.{time_there, times_at, times_in, group_key, required_times};
ghost use Rattle.file_line.specs.Times.{optional_times};
ghost use Rattle.model_line.specs.{Settings.time_key};
ghost use Rattle.file_line.specs.Places.{places_of, in_table};

use crate::places::TablePlaces;
use base_memory::Stopped;
use file_document::keys::{find, only_settings, required, table_of};
use file_document::{DocumentFault, Path};
use model_line::{Bounds, Setting};
use toml::{Table, Value};

/// How many units of time a tick has: version 1 writes ticks, version 2 microseconds.
pub fn units(version: u32, tick_us: u32) -> u32
    requires { (1 ≤ tick_us) × (tick_us ≤ 1000000) }
    ensures units { result ≡ units_per_tick version tick_us }
    ensures within { (0 < result) × (result ≤ 1000000) }
{
    if version == 1 { 1 } else { tick_us }
}

// An interval in ticks.
fn ticks(unit: u32, least: u32, greatest: u32) -> Bounds
    requires some { 0 < unit }
    requires few { unit ≤ 1000000 }
    requires within { greatest ≤ 4000000000 }
    ensures { result ≡ in_ticks unit least greatest }
{
    Bounds {
        least: least / unit,
        greatest: (greatest + (unit - 1)) / unit,
    }
}

// Two ends in units.
fn interval(
    path: Path,
    unit: u32,
    fewest: u32,
    least: i64,
    greatest: i64,
) -> Result<Bounds, DocumentFault>
    requires some { 0 < unit }
    requires few { unit ≤ 1000000 }
    ensures { result ≡ interval_in path unit fewest least greatest }
{
    let (Ok(least), Ok(greatest)) = (u32::try_from(least), u32::try_from(greatest)) else {
        return Err(DocumentFault::Range(path));
    };
    if least <= greatest && greatest <= 4000 * unit && fewest <= least / unit {
        Ok(ticks(unit, least, greatest))
    } else {
        Err(DocumentFault::Range(path))
    }
}

// An array of exactly two whole numbers.
fn ends(path: Path, unit: u32, fewest: u32, items: &[Value]) -> Result<Bounds, DocumentFault>
    requires some { 0 < unit }
    requires few { unit ≤ 1000000 }
    ensures { result ≡ ends_in path unit fewest (items_view items.now) }
{
    if items.len() != 2 {
        return Err(DocumentFault::WrongKind(path));
    }
    match (items[0].as_integer(), items[1].as_integer()) {
        (Some(least), Some(greatest)) => interval(path, unit, fewest, least, greatest),
        _ => Err(DocumentFault::WrongKind(path)),
    }
}

// A time: a whole number, or an array of two.
fn time_of(path: Path, unit: u32, fewest: u32, value: &Value) -> Result<Bounds, DocumentFault>
    requires some { 0 < unit }
    requires few { unit ≤ 1000000 }
    ensures { result ≡ time_in path unit fewest (view value.now) }
{
    match value {
        Value::Integer(n) => interval(path, unit, fewest, *n, *n),
        Value::Array(items) => ends(path, unit, fewest, items.as_slice()),
        _ => Err(DocumentFault::WrongKind(path)),
    }
}

/// A table whose times are in units of so many to a tick.
#[derive(Drop)]
pub struct TableTimes<'a> {
    pub unit: u32,
    pub table: &'a Table,
    pub ghost some: { 0 < unit },
    pub ghost few: { unit ≤ 1000000 },
}

impl<'a> TableTimes<'a> {
    /// A required time of at least `fewest` ticks, which stands at the path.
    #[tactic(auto, unfolding(crate::specs::Times::time_there))]
    pub fn time(&self, path: Path, setting: Setting, fewest: u32) -> Result<Bounds, DocumentFault>
        ensures { result
            ≡ time_there path (time_key setting) self.now.unit fewest
            (table_view self.now.table.now) }
    {
        let value = required(path, find(self.table, setting.key()))?;
        time_of(path, self.unit, fewest, value)
    }

    // The times of these settings, in the table at the path.
    fn times(
        &self,
        path: Path,
        settings: &[Setting],
        intervals: &mut Vec<Bounds>,
    ) -> Result<(), Stopped<DocumentFault>>
        ensures { Becomes result intervals.new.items
            (times_at (in_table path) settings.now self.now.unit (table_view self.now.table.now)
            intervals.old.items) }
    {
        for setting in settings {
            let key = setting.key();
            let stands = path.key(key.as_bytes());
            let interval = self.time(stands, *setting, 0)?;
            intervals.push(interval)?;
        }
        Ok(())
    }

    // The times of the table at the path, which has these settings and no others.
    #[tactic(auto, unfolding(crate::specs::Times::times_in))]
    fn times_in(
        &self,
        path: Path,
        value: &Value,
        settings: &[Setting],
        intervals: &mut Vec<Bounds>,
    ) -> Result<(), Stopped<DocumentFault>>
        ensures { Becomes result intervals.new.items
            (times_in path settings.now self.now.unit (view value.now) intervals.old.items) }
    {
        let table = table_of(path, value)?;
        only_settings(path, settings, table)?;
        let inner = TableTimes {
            unit: self.unit,
            table,
        };
        inner.times(path, settings, intervals)
    }

    /// The times of the table that these settings have; no settings have none.
    #[tactic(auto, unfolding(crate::specs::Times::required_times))]
    pub fn required(
        &self,
        places: &TablePlaces<'_>,
        settings: &[Setting],
        intervals: &mut Vec<Bounds>,
    ) -> Result<(), Stopped<DocumentFault>>
        ensures { Becomes result intervals.new.items
            (required_times (places_of places.now) settings.now self.now.unit
            (table_view self.now.table.now) intervals.old.items) }
    {
        let Some(first) = settings.first() else {
            return Ok(());
        };
        let key = first.table();
        let value = places.value(key, self.table)?;
        self.times_in(places.key(key), value, settings, intervals)
    }

    /// The times of the table that these settings may have; else these stand for them.
    #[tactic(auto, unfolding(crate::specs::Times::optional_times))]
    pub fn optional(
        &self,
        places: &TablePlaces<'_>,
        absent: &[Bounds],
        settings: &[Setting],
        intervals: &mut Vec<Bounds>,
    ) -> Result<(), Stopped<DocumentFault>>
        ensures { Becomes result intervals.new.items
            (optional_times absent.now (places_of places.now) settings.now self.now.unit
            (table_view self.now.table.now) intervals.old.items) }
    {
        let key = group_key(settings);
        match find(self.table, key) {
            Some(value) => self.times_in(places.key(key), value, settings, intervals),
            None => {
                intervals.extend_from_slice(absent)?;
                Ok(())
            }
        }
    }
}

/// The key of the table that a group of settings has.
pub fn group_key(settings: &[Setting]) -> &'static str
    ensures { result.now ≡ group_key settings.now }
{
    match settings.first() {
        Some(first) => first.table(),
        None => "",
    }
}
