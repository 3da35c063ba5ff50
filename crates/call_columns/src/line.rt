//! The lines of records under columns.

ghost use Rattle.std.specs.Prelude.{◌≡◌, ◌++◌, OnOk};
ghost use Rattle.csv.specs.Records.{fields_of};
ghost use Rattle.call_columns.specs.Fields.{blanks};
ghost use Rattle.call_columns.specs.Lines.{before as blanks_before, behind as blanks_behind};
ghost use Rattle.call_columns.specs.Lines.{field_text, line_behind, line_of as line_of_record};

use crate::column::{Column, field_of};
use crate::tone::{push_told, tone_of};
use base_memory::Memory;
use base_records::is_nothing;
use csv::ByteRecord;
use std::alloc::Global;

/// Appends the line of a record, with no blanks that nothing follows.
pub fn push_line(
    alloc: Global,
    text: &mut Vec<u8>,
    is_colored: bool,
    columns: &[Column],
    row: &ByteRecord,
) -> Result<(), Memory>
    ensures { OnOk result (text.new.items
        ≡ text.old.items ++ line_of_record is_colored columns.now (fields_of row.now)) }
{
    push_behind(text, Vec::new(alloc), is_colored, columns, row)
}

// Appends the rest of a line, with a gap before what stands in it next.
fn push_behind(
    text: &mut Vec<u8>,
    mut gap: Vec<u8>,
    is_colored: bool,
    columns: &[Column],
    row: &ByteRecord,
) -> Result<(), Memory>
    ensures { OnOk result (text.new.items ≡ text.old.items
        ++ line_behind is_colored gap.items columns.now (fields_of row.now)) }
{
    let [column, more @ ..] = columns else {
        text.push(b'\n')?;
        return Ok(());
    };
    let field = field_of(row, column.place);
    if is_nothing(field) {
        push_blanks(&mut gap, column.width)?;
    } else {
        text.extend_from_slice(gap.as_slice())?;
        push_field(text, is_colored, column, field)?;
        gap.clear();
        push_blanks(&mut gap, behind(column, field))?;
    }
    gap.extend_from_slice(b"  ")?;
    push_behind(text, gap, is_colored, more, row)
}

// Appends a field, and the blanks before it.
fn push_field(
    text: &mut Vec<u8>,
    is_colored: bool,
    column: &Column,
    field: &[u8],
) -> Result<(), Memory>
    ensures { OnOk result (text.new.items
        ≡ text.old.items ++ field_text is_colored column.now field.now) }
{
    push_blanks(text, before(column, field))?;
    push_told(text, tone_of(is_colored, column.kind, field), field)
}

fn before(column: &Column, field: &[u8]) -> usize
    ensures { result ≡ blanks_before column.now field.now }
{
    if column.is_right {
        column.width.saturating_sub(field.len())
    } else {
        0
    }
}

fn behind(column: &Column, field: &[u8]) -> usize
    ensures { result ≡ blanks_behind column.now field.now }
{
    if column.is_right {
        0
    } else {
        column.width.saturating_sub(field.len())
    }
}

// Appends so many blanks.
fn push_blanks(text: &mut Vec<u8>, many: usize) -> Result<(), Memory>
    ensures { OnOk result (text.new.items ≡ text.old.items ++ blanks many) }
{
    for _ in 0..many {
        text.push(b' ')?;
    }
    Ok(())
}
