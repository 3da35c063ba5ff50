//! A table of records as columns.

ghost use Rattle.std.specs.Prelude.{◌≡◌, ◌++◌, IfOk, OnOk, map};
ghost use Rattle.std.specs.List.{flat_map};
ghost use Rattle.csv.specs.Records.{fields_of};
ghost use Rattle.call_columns.specs.{Lines.line_of, Tables.columns_text, Tables.table_of};

use crate::answers::push_summary;
use crate::column::{Column, columns_of};
use crate::line::push_line;
use crate::rows::all_rows;
use base_memory::Memory;
use csv::ByteRecord;
use std::alloc::Global;

/// A CSV text as columns for the eye: columns in which nothing stands are left out, figures stand at the
/// right, and behind the records stands what they come to. With colours, answers are told in those that
/// terminals have.
pub fn as_columns(alloc: Global, csv: &[u8], is_colored: bool) -> Result<Vec<u8>, Memory>
    ensures { IfOk result (λ text. text.items ≡ columns_text is_colored csv.now) }
{
    let rows = all_rows(alloc, csv)?;
    table_text(alloc, rows.as_slice(), is_colored)
}

fn table_text(alloc: Global, table: &[ByteRecord], is_colored: bool) -> Result<Vec<u8>, Memory>
    ensures { IfOk result (λ text. text.items ≡ table_of is_colored (map fields_of table.now)) }
{
    let mut text = Vec::new(alloc);
    if let [header, rows @ ..] = table {
        let columns = columns_of(alloc, header, rows)?;
        push_line(alloc, &mut text, false, columns.as_slice(), header)?;
        push_lines(alloc, &mut text, is_colored, columns.as_slice(), rows)?;
        push_summary(&mut text, header, rows)?;
    }
    Ok(text)
}

fn push_lines(
    alloc: Global,
    text: &mut Vec<u8>,
    is_colored: bool,
    columns: &[Column],
    rows: &[ByteRecord],
) -> Result<(), Memory>
    ensures { OnOk result (text.new.items ≡ text.old.items
        ++ flat_map (line_of is_colored columns.now) (map fields_of rows.now)) }
{
    for row in rows {
        push_line(alloc, text, is_colored, columns, row)?;
    }
    Ok(())
}
