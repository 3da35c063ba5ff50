//! The records of what changed.

ghost use Rattle.std.specs.Prelude.{◌≡◌, ◌++◌, OnOk, map, Option, option_map};
ghost use Rattle.std.specs.List.{flat_map};
ghost use Rattle.csv.specs.Records.{fields_of};
ghost use Rattle.call_compare.specs.Compared.{gone_told, group_told, is_of as is_of_group};
ghost use Rattle.call_compare.specs.Compared.{told as told_so, told_gone, told_in};

use crate::change::{Change, change_of};
use crate::versions::{named, named_or, rows_of, same_in};
use base_memory::Memory;
use base_records::{is, push_record};
use csv::ByteRecord;
use std::alloc::Global;

/// Two versions, each the records of its table with their header.
#[derive(Clone, Copy)]
pub struct Versions<'a> {
    pub old: &'a [ByteRecord],
    pub new: &'a [ByteRecord],
}

/// Whether a change is of this group.
#[tactic(auto, unfolding(crate::specs::Compared::is_of))]
pub fn is_of(group: Change, change: Change) -> bool
    ensures { result ≡ is_of_group group change }
{
    is(group.word(), change.word())
}

/// Appends the records of now whose change is of this group.
#[tactic(auto, unfolding(crate::specs::Compared::group_told))]
pub fn push_group(
    alloc: Global,
    text: &mut Vec<u8>,
    group: Change,
    both: Versions<'_>,
) -> Result<(), Memory>
    ensures { OnOk result (text.new.items ≡ text.old.items
        ++ group_told group (map fields_of both.entry.old.now) (map fields_of both.entry.new.now)) }
{
    push_rows(alloc, text, group, both, rows_of(both.new))
}

fn push_rows<'a>(
    alloc: Global,
    text: &mut Vec<u8>,
    group: Change,
    both: Versions<'a>,
    rows: &'a [ByteRecord],
) -> Result<(), Memory>
    ensures { OnOk result (text.new.items ≡ text.old.items ++ flat_map (told_in group
        (map fields_of both.entry.old.now) (map fields_of both.entry.new.now))
        (map fields_of rows.now)) }
{
    for now in rows {
        push_in(alloc, text, group, both, now)?;
    }
    Ok(())
}

// Appends a record of now, where its change is of this group.
#[tactic(auto, unfolding(crate::specs::Compared::told_in))]
fn push_in<'a>(
    alloc: Global,
    text: &mut Vec<u8>,
    group: Change,
    both: Versions<'a>,
    now: &'a ByteRecord,
) -> Result<(), Memory>
    ensures { OnOk result (text.new.items ≡ text.old.items ++ told_in group
        (map fields_of both.entry.old.now) (map fields_of both.entry.new.now) (fields_of now.now)) }
{
    if !is_of(group, change_of(both.old, both.new, now)) {
        return Ok(());
    }
    let was = same_in(both.old, both.new, now);
    push_told(alloc, text, both.new, now, group, both, was, Some(now))
}

/// Appends the records of before that are not there now.
#[tactic(auto, unfolding(crate::specs::Compared::gone_told))]
pub fn push_gone(alloc: Global, text: &mut Vec<u8>, both: Versions<'_>) -> Result<(), Memory>
    ensures { OnOk result (text.new.items ≡ text.old.items
        ++ gone_told (map fields_of both.entry.old.now) (map fields_of both.entry.new.now)) }
{
    push_gone_rows(alloc, text, both, rows_of(both.old))
}

fn push_gone_rows<'a>(
    alloc: Global,
    text: &mut Vec<u8>,
    both: Versions<'a>,
    rows: &'a [ByteRecord],
) -> Result<(), Memory>
    ensures { OnOk result (text.new.items ≡ text.old.items ++ flat_map (told_gone
        (map fields_of both.entry.old.now) (map fields_of both.entry.new.now))
        (map fields_of rows.now)) }
{
    for was in rows {
        push_if_gone(alloc, text, both, was)?;
    }
    Ok(())
}

#[tactic(auto, unfolding(crate::specs::Compared::told_gone))]
fn push_if_gone<'a>(
    alloc: Global,
    text: &mut Vec<u8>,
    both: Versions<'a>,
    was: &'a ByteRecord,
) -> Result<(), Memory>
    ensures { OnOk result (text.new.items ≡ text.old.items ++ told_gone
        (map fields_of both.entry.old.now) (map fields_of both.entry.new.now) (fields_of was.now)) }
{
    match same_in(both.new, both.old, was) {
        Some(_) => Ok(()),
        None => push_told(
            alloc,
            text,
            both.old,
            was,
            Change::Gone,
            both,
            Some(was),
            None,
        ),
    }
}

// Appends a record, whose names are those of a record of this table.
#[tactic(auto, unfolding(crate::specs::Compared::told))]
fn push_told<'a>(
    alloc: Global,
    text: &mut Vec<u8>,
    table: &'a [ByteRecord],
    row: &'a ByteRecord,
    change: Change,
    both: Versions<'a>,
    was: Option<&'a ByteRecord>,
    now: Option<&'a ByteRecord>,
) -> Result<(), Memory>
    ensures { OnOk result (text.new.items ≡ text.old.items ++ told_so (map fields_of table.now)
        (fields_of row.now) change
        (map fields_of both.entry.old.now) (option_map (λ r. fields_of r.now) was.entry)
        (map fields_of both.entry.new.now) (option_map (λ r. fields_of r.now) now.entry)) }
{
    let (old, new) = (both.old, both.new);
    let word: &'a [u8] = change.word();
    push_record(
        alloc,
        text,
        &[
            named(b"fault", table, row),
            named(b"terminal", table, row),
            word,
            named_or(b"held", old, was),
            named_or(b"held", new, now),
            named_or(b"fails", old, was),
            named_or(b"fails", new, now),
            named_or(b"open", old, was),
            named_or(b"open", new, now),
            named_or(b"not_held_ms", old, was),
            named_or(b"not_held_ms", new, now),
            named_or(b"margin_ms", old, was),
            named_or(b"margin_ms", new, now),
        ],
    )
}
