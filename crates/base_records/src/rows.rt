//! The records of a text one after another, as the csv reader reaches them.

ghost use Rattle.std.specs.Prelude.{◌≡◌, IfOk, true};
ghost use Rattle.csv.specs.{Reading.stops_reader, Records.fields_of};
ghost use Rattle.base_records.specs.{Records.records_of, Left.IsReading, Left.NextRow};
ghost use Rattle.base_records.specs.{Left.left_of};

use base_memory::Memory;
use csv::{ByteRecord, ErrorKind, Reader, ReaderBuilder};
use std::alloc::Global;

/// Before the first record of the bytes.
pub fn rows_of(alloc: Global, bytes: &[u8]) -> Reader<&[u8]>
    ensures reading { IsReading result }
    ensures left { left_of result ≡ records_of bytes.now }
{
    ReaderBuilder::new()
        .has_headers(false)
        .flexible(true)
        .from_reader(alloc, bytes)
}

/// Whether there is another record, which `row` then holds.
pub fn next_row(rows: &mut Reader<&[u8]>, row: &mut ByteRecord) -> Result<bool, Memory>
    requires { IsReading rows.old }
    ensures { IfOk result (λ found. NextRow found rows.old (fields_of row.new) rows.new) }
{
    match rows.read_byte_record(row) {
        Ok(found) => Ok(found),
        Err(error) => Err(stopped(error.into_kind())),
    }
}

// A slice never fails to be read, so either kind of error that stops a reader is want of memory.
fn stopped(kind: ErrorKind) -> Memory
    requires { stops_reader kind ≡ true }
{
    match kind {
        ErrorKind::Io(_) | ErrorKind::OutOfMemory => Memory,
        _ => unreachable!(),
    }
}
