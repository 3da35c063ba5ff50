//! The records of two versions, and which belong together.

ghost use Rattle.std.specs.Prelude.{◌≡◌, ◌&&◌, codes, map, Option, option_map};
ghost use Rattle.csv.specs.Records.{fields_of};
ghost use Rattle.call_compare.specs.Versions.{first_at as first_in, is_at as is_record_at};
ghost use Rattle.call_compare.specs.Versions.{named as named_in, named_or as named_or_none};
ghost use Rattle.call_compare.specs.Versions.{rows_of as rows_in, same_in as same_record};

use base_records::is;
use call_columns::{field_of, place_named};
use csv::ByteRecord;

/// The field of a record in the column of this name; nothing where the table has none.
#[tactic(auto, unfolding(crate::specs::Versions::named))]
pub fn named<'a>(name: &[u8], table: &[ByteRecord], row: &'a ByteRecord) -> &'a [u8]
    ensures { result.now ≡ named_in name.now (map fields_of table.now) (fields_of row.now) }
{
    match table {
        [] => &[],
        [header, ..] => match place_named(name, header) {
            Some(place) => field_of(row, place),
            None => &[],
        },
    }
}

/// The same of a record that may be missing.
#[tactic(auto, unfolding(crate::specs::Versions::named_or))]
pub fn named_or<'a>(name: &[u8], table: &[ByteRecord], row: Option<&'a ByteRecord>) -> &'a [u8]
    ensures { result.now ≡ named_or_none name.now (map fields_of table.now)
        (option_map (λ r. fields_of r.now) row.entry) }
{
    match row {
        Some(row) => named(name, table, row),
        None => &[],
    }
}

/// The records below the header.
pub fn rows_of(table: &[ByteRecord]) -> &[ByteRecord]
    ensures { map fields_of result.now ≡ rows_in (map fields_of table.now) }
{
    match table {
        [] => &[],
        [_, rows @ ..] => rows,
    }
}

/// The record of another version of the same fault and terminal, if it has one.
#[tactic(auto, unfolding(crate::specs::Versions::same_in))]
pub fn same_in<'a>(
    other: &'a [ByteRecord],
    table: &[ByteRecord],
    row: &ByteRecord,
) -> Option<&'a ByteRecord>
    ensures { option_map (λ r. fields_of r.now) result
        ≡ same_record (map fields_of other.now) (map fields_of table.now) (fields_of row.now) }
{
    let fault = named(b"fault", table, row);
    let terminal = named(b"terminal", table, row);
    first_at(fault, terminal, other, rows_of(other))
}

// The first of these records that is of a fault at a terminal.
fn first_at<'a>(
    fault: &[u8],
    terminal: &[u8],
    table: &[ByteRecord],
    rows: &'a [ByteRecord],
) -> Option<&'a ByteRecord>
    ensures { option_map (λ r. fields_of r.now) result
        ≡ first_in fault.now terminal.now (map fields_of table.now) (map fields_of rows.now) }
{
    for row in rows {
        if is_at(fault, terminal, table, row) {
            return Some(row);
        }
    }
    None
}

fn is_at(fault: &[u8], terminal: &[u8], table: &[ByteRecord], row: &ByteRecord) -> bool
    ensures { result
        ≡ is_record_at fault.now terminal.now (map fields_of table.now) (fields_of row.now) }
{
    is(named(b"fault", table, row), fault) && is(named(b"terminal", table, row), terminal)
}
