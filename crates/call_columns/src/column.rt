//! The columns of a table.

ghost use Rattle.std.specs.Prelude.{◌≡◌, IfOk, map};
ghost use Rattle.std.specs.List.{list_all};
ghost use Rattle.csv.specs.Records.{fields_of};
ghost use Rattle.call_columns.specs.Columns.{are_figures as are_figures_of, column_at as column_of};
ghost use Rattle.call_columns.specs.Columns.{columns_of as columns_of_table};
ghost use Rattle.call_columns.specs.Columns.{is_shown as is_shown_in, kind_of as kind_named};
ghost use Rattle.call_columns.specs.Columns.{stands as stands_in, width_of as width_in};
ghost use Rattle.call_columns.specs.Fields.{field_of as text_at, is_figure as is_figure_of};

use base_memory::Memory;
use base_records::{is, is_nothing};
use csv::ByteRecord;
use std::alloc::Global;

/// What a column is of: answers, a count of what fails or is open, or anything else.
#[derive(Clone, Copy)]
pub enum Kind {
    Answer,
    Fails,
    Open,
    Other,
}

/// A column: the place of its fields in a record, the greatest length of one, whether they stand at its
/// right, and what it is of.
#[derive(Clone, Copy)]
pub struct Column {
    pub place: usize,
    pub width: usize,
    pub is_right: bool,
    pub kind: Kind,
}

/// The field at a place, the first being 0; nothing where the record has none.
pub fn field_of(row: &ByteRecord, place: usize) -> &[u8]
    ensures { result.now ≡ text_at (fields_of row.now) place }
{
    match row.get(place) {
        Some(field) => field,
        None => &[],
    }
}

/// The columns that are shown of a table: those in which something stands below the header, and all
/// where nothing is below it.
pub fn columns_of(
    alloc: Global,
    header: &ByteRecord,
    rows: &[ByteRecord],
) -> Result<Vec<Column>, Memory>
    ensures { IfOk result (λ v. v.items
        ≡ columns_of_table (fields_of header.now) (map fields_of rows.now)) }
{
    let mut columns = Vec::new(alloc);
    for place in 0..header.len() {
        if is_shown(rows, place) {
            columns.push(column_at(header, rows, place))?;
        }
    }
    Ok(columns)
}

fn column_at(header: &ByteRecord, rows: &[ByteRecord], place: usize) -> Column
    ensures { result ≡ column_of (fields_of header.now) (map fields_of rows.now) place }
{
    let name = field_of(header, place);
    Column {
        place,
        width: name.len().max(width_of(rows, place)),
        is_right: are_figures(rows, place),
        kind: kind_of(name),
    }
}

// The greatest length of a field at a place.
fn width_of(rows: &[ByteRecord], place: usize) -> usize
    ensures { result ≡ width_in (map fields_of rows.now) place }
{
    let mut width = 0;
    for row in rows {
        width = width.max(field_of(row, place).len());
    }
    width
}

// Whether something stands at a place in some record, or there is none.
fn is_shown(rows: &[ByteRecord], place: usize) -> bool
    ensures { result ≡ is_shown_in (map fields_of rows.now) place }
{
    match rows {
        [] => true,
        _ => stands(rows, place),
    }
}

fn stands(rows: &[ByteRecord], place: usize) -> bool
    ensures { result ≡ stands_in (map fields_of rows.now) place }
{
    for row in rows {
        if !is_nothing(field_of(row, place)) {
            return true;
        }
    }
    false
}

// Whether what stands at a place is figures alone.
fn are_figures(rows: &[ByteRecord], place: usize) -> bool
    ensures { result ≡ are_figures_of (map fields_of rows.now) place }
{
    for row in rows {
        if !are_digits(field_of(row, place)) {
            return false;
        }
    }
    true
}

fn are_digits(field: &[u8]) -> bool
    ensures { result ≡ list_all is_figure_of field.now }
{
    field.iter().all(|byte| is_figure(*byte))
}

fn is_figure(byte: u8) -> bool
    ensures { result ≡ is_figure_of byte }
{
    byte.is_ascii_digit() || byte == b'.' || byte == b'-'
}

fn kind_of(name: &[u8]) -> Kind
    ensures { result ≡ kind_named name.now }
{
    if is(name, b"answer") {
        Kind::Answer
    } else if is(name, b"fails") {
        Kind::Fails
    } else if is(name, b"open") {
        Kind::Open
    } else {
        Kind::Other
    }
}
