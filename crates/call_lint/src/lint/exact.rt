//! The times as the files write them, in microseconds.

ghost use Rattle.std.specs.Prelude.{IfOk};
ghost use Rattle.std.specs.List.{All};
ghost use Rattle.file_study.specs.times.Times.{IsEnd};
ghost use Rattle.call_lint.specs.warnings.TimeTests.{AreEnds};

use crate::lint::owners::{parted, place_of_owner};
use crate::lint::sheet::Sheet;
use file_study::times::{Fraction, Interval, Time, read_time};
use model_line::{Line, Memory};
use std::alloc::Global;
use toml::value::Index;
use toml::{Table, Value};

/// The ends of each parameter in microseconds, as a line file of version 2 or a study writes them;
/// none of a line file of version 1, whose times are ticks.
pub fn exact_ends(alloc: Global, line: &Line, sheet: Sheet<'_>) -> Result<Vec<Interval>, Memory>
    ensures { IfOk result (λ v. All AreEnds v.items) }
{
    let (bytes, hertz) = match sheet {
        Sheet::Files { line, .. } => (line, None),
        Sheet::Study { bytes, hertz, .. } => (bytes, hertz),
    };
    match toml::table_from_slice(alloc, bytes) {
        Ok(top) => ends_in(alloc, line, sheet, hertz, &top),
        Err(error) => {
            if error.is_memory() {
                Err(Memory)
            } else {
                Ok(Vec::new(alloc))
            }
        }
    }
}

fn ends_in(
    alloc: Global,
    line: &Line,
    sheet: Sheet<'_>,
    hertz: Option<u32>,
    top: &Table,
) -> Result<Vec<Interval>, Memory>
    ensures { IfOk result (λ v. All AreEnds v.items) }
{
    let mut exact = Vec::new(alloc);
    if !is_in_ticks(top) {
        for param in line.params.iter() {
            let value = value_of(line, sheet, top, param.name.bytes());
            exact.push(ends_of(value, hertz))?;
        }
    }
    Ok(exact)
}

fn is_in_ticks(top: &Table) -> bool {
    matches!(top.get("version"), Some(Value::Integer(1)))
}

// What is written for the parameter of this name, as `east.z1.pickup`.
fn value_of<'a>(line: &Line, sheet: Sheet<'_>, top: &'a Table, name: &[u8]) -> Option<&'a Value> {
    let (owner, path) = parted(name);
    let (key, inner) = parted(path);
    let value = value_at(line, sheet, top, owner, text_of(key))?;
    if inner.is_empty() {
        Some(value)
    } else {
        value.get(text_of(inner))
    }
}

// What stands at a key of an owner. In a study its own stands for the whole of the default one.
fn value_at<'a>(
    line: &Line,
    sheet: Sheet<'_>,
    top: &'a Table,
    owner: &[u8],
    key: &str,
) -> Option<&'a Value> {
    let (kind, number) = place_of_owner(line, owner);
    match sheet {
        Sheet::Files { .. } => value_under(top, kind, number, key),
        Sheet::Study { .. } => {
            value_under(top, kind, text_of(owner), key).or(value_under(top, "default", kind, key))
        }
    }
}

fn value_under<'a, I: Index + Drop>(
    top: &'a Table,
    outer: &str,
    inner: I,
    key: &str,
) -> Option<&'a Value> {
    top.get(outer)?.get(inner)?.get(key)
}

fn text_of(key: &[u8]) -> &str {
    std::str::from_utf8(key).unwrap_or("")
}

// The ends of a time: a number of microseconds, two of them, or a text with a unit. Those of none
// are 0.
fn ends_of(value: Option<&Value>, hertz: Option<u32>) -> Interval
    ensures { AreEnds result }
{
    match value {
        Some(Value::Integer(n)) => interval(*n, *n),
        Some(Value::Array(items)) => interval(number_at(items, 0), number_at(items, 1)),
        Some(Value::String(text)) => match read_time(text.as_bytes(), hertz) {
            Ok(Time::Interval(ends)) => ends,
            _ => interval(0, 0),
        },
        _ => interval(0, 0),
    }
}

fn number_at(items: &[Value], i: usize) -> i64 {
    match items.get(i) {
        Some(Value::Integer(n)) => *n,
        _ => 0,
    }
}

// From so many microseconds to so many.
fn interval(least: i64, greatest: i64) -> Interval
    ensures { AreEnds result }
{
    Interval {
        least: microseconds(least),
        greatest: microseconds(greatest),
    }
}

fn microseconds(number: i64) -> Fraction
    ensures { IsEnd result }
{
    let over = u32::try_from(number).unwrap_or(0);
    Fraction {
        over: u128::from(over),
        under: 1,
    }
}
