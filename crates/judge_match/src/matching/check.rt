//! The checks of one record, each of them alone.

ghost use Rattle.std.specs.Prelude.{◌≡◌, ◌==◌, ◌≤◌, option_map, false, length, nat_lt};
ghost use Rattle.std.specs.Prelude.{option_to_list};
ghost use Rattle.std.specs.List.{list_any};
ghost use Rattle.std.proofs.lemmas.Map.Entries.{option_filter};
ghost use Rattle.model_names.specs.NumbersByName.{script_named};
ghost use Rattle.base_records.specs.SoFar.{so_far_of};
ghost use Rattle.base_text.specs.store.Number.{number_of};
ghost use Rattle.judge_match.specs.matching.Row.{row_of};
ghost use Rattle.judge_match.specs.matching.Heads.{values_of, level_after as level_left};
ghost use Rattle.judge_match.specs.matching.Heads.{is_of as is_of_signal};
ghost use Rattle.judge_match.specs.matching.Checks.{is_head as heads, is_taken, name_for, signal_of};
ghost use Rattle.judge_match.specs.matching.Checks.{place_at, comes_after, comes_later};
ghost use Rattle.base_records.specs.Fields.{level_named as level_in};
ghost use Rattle.judge_match.specs.matching.Checks.{level_before, other_level};

use crate::matching::change::{Change, Place};
use crate::matching::fields::Fields;
use crate::matching::heads::Head;
use base_records::{Reading, is, is_nothing, level_named};
use base_text::store::number;
use model_line::{Line, Script};
use model_names::{script_of_name, terminal_of_name};

/// Whether the record is a head: all fields behind its name are empty.
pub fn is_head(fields: Fields) -> bool
    ensures { result ≡ heads (row_of fields.entry) }
{
    is_nothing(fields.tick)
        && is_nothing(fields.terminal)
        && is_nothing(fields.signal)
        && is_nothing(fields.level)
}

/// The number of the script that the record names, where it may.
pub fn script_number(
    reading: &Reading<Head>,
    scripts: &[Script],
    fields: Fields,
    head: bool,
) -> Option<u32>
    requires few { length scripts.now ≤ 64 }
    ensures { result ≡ name_for (so_far_of values_of reading.now) head
        (script_named scripts.now (row_of fields.entry).name) }
{
    let script = script_of_name(scripts, fields.name)? as u32;
    if head && is_used(reading, script) {
        None
    } else {
        Some(script)
    }
}

#[tactic(auto, using(crate::proofs::matching_lemmas::Taken::taken_split))]
fn is_used(reading: &Reading<Head>, script: u32) -> bool
    ensures { result ≡ is_taken (so_far_of values_of reading.now) script }
{
    is_any(reading.done.as_slice(), script) || is_latest(&reading.latest, script)
}

fn is_any(heads: &[Head], script: u32) -> bool
    ensures { result ≡ list_any (λ h. h.script == script) heads.now }
{
    heads.iter().any(|head| head.script == script)
}

fn is_latest(latest: &Option<Head>, script: u32) -> bool
    ensures { result ≡ list_any (λ h. h.script == script)
        (option_to_list (option_map values_of latest.now)) }
{
    match latest {
        Some(head) => head.script == script,
        None => false,
    }
}

/// The place of a row.
pub fn place(line: &Line, fields: Fields) -> Option<Place>
    ensures { result ≡ place_at line.now (row_of fields.entry) }
{
    let terminal = terminal_of_name(line, fields.terminal)?;
    let trip = signal_named(fields.signal)?;
    Some(Place { terminal, trip })
}

// Whether the text names a trip, or a key.
fn signal_named(text: &[u8]) -> Option<bool>
    ensures { result ≡ signal_of text.now }
{
    if is(text, b"key") {
        Some(false)
    } else if is(text, b"trip") {
        Some(true)
    } else {
        None
    }
}

/// The tick of a row.
pub fn tick(line: &Line, text: &[u8]) -> Option<u32>
    ensures { result ≡ option_filter (λ t. nat_lt t line.now.horizon) (number_of text.now) }
{
    let t = number(text)?;
    if t < line.horizon { Some(t) } else { None }
}

/// Whether the row comes after the one before it under its head.
pub fn is_later(head: &Head, t: u32, place: Place) -> bool
    ensures { result ≡ comes_later head.now.latest t place }
{
    match head.latest {
        Some(change) => is_after(change, t, place),
        None => true,
    }
}

fn is_after(change: Change, t: u32, place: Place) -> bool
    ensures { result ≡ comes_after change t place }
{
    change.tick < t
        || (change.tick == t
            && (change.terminal < place.terminal
                || (change.terminal == place.terminal && (!change.trip && place.trip))))
}

/// The level of a row, where its signal has the other one.
pub fn level(head: &Head, place: Place, text: &[u8]) -> Option<bool>
    ensures { result ≡ other_level (level_before (values_of head.now) place) (level_in text.now) }
{
    let level = level_named(text)?;
    if level == level_after(&head.changes, place.terminal, place.trip) {
        None
    } else {
        Some(level)
    }
}

// The level at which the changes leave a signal.
fn level_after(changes: &[Change], terminal: u32, trip: bool) -> bool
    ensures { result ≡ level_left terminal trip changes.now false }
{
    let mut rest = changes.len();
    'from_the_last: while rest > 0 {
        rest -= 1;
        let change = changes[rest];
        if is_of(change, terminal, trip) {
            return change.level;
        }
    }
    false
}

/// Whether the change is of this signal.
pub fn is_of(change: Change, terminal: u32, trip: bool) -> bool
    ensures { result ≡ is_of_signal terminal trip change }
{
    change.terminal == terminal && change.trip == trip
}
