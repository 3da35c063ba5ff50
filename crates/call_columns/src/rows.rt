//! The records of a text, all of them.

ghost use Rattle.std.specs.Prelude.{◌≡◌, IfOk, map};
ghost use Rattle.csv.specs.Records.{fields_of};
ghost use Rattle.base_records.specs.{Records.records_of, Left.IsReading, Left.left_of};

use base_memory::Memory;
use base_records::{next_row, rows_of};
use csv::{ByteRecord, Reader};
use std::alloc::Global;

/// The records of a CSV text, with no header row and of any length.
pub fn all_rows(alloc: Global, csv: &[u8]) -> Result<Vec<ByteRecord>, Memory>
    ensures { IfOk result (λ v. map fields_of v.items ≡ records_of csv.now) }
{
    read_rows(alloc, rows_of(alloc, csv))
}

// The records that are left.
fn read_rows(alloc: Global, reader: Reader<&[u8]>) -> Result<Vec<ByteRecord>, Memory>
    requires { IsReading reader }
    ensures { IfOk result (λ v. map fields_of v.items ≡ left_of reader.entry) }
{
    let mut reader = reader;
    let mut rows = Vec::new(alloc);
    let mut row = ByteRecord::new(alloc);
    'rows: while next_row(&mut reader, &mut row)? {
        rows.push(row)?;
        row = ByteRecord::new(alloc);
    }
    Ok(rows)
}
