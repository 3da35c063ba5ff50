//! Where a record stands.

ghost use Rattle.std.specs.Prelude.{◌≤◌, IfOk, length};

use base_memory::Memory;
use csv::{ByteRecord, Reader, ReaderBuilder};
use std::alloc::Global;

/// Where the record of this number begins, the first being 1; the end of the bytes where there is
/// none.
pub fn place_of_record(alloc: Global, bytes: &[u8], number: u32) -> Result<usize, Memory>
    ensures { IfOk result (λ place. place ≤ length bytes.now) }
{
    let mut rows = ReaderBuilder::new()
        .has_headers(false)
        .flexible(true)
        .from_reader(alloc, bytes);
    place_in(&mut rows, &mut ByteRecord::new(alloc), bytes, number)
}

// The same of the records that a reader of the bytes has, each read into this row.
fn place_in(
    rows: &mut Reader<&[u8]>,
    row: &mut ByteRecord,
    bytes: &[u8],
    number: u32,
) -> Result<usize, Memory>
    ensures { IfOk result (λ place. place ≤ length bytes.now) }
{
    let mut place = bytes.len();
    'rows: for _ in 0..number {
        match rows.read_byte_record(row) {
            Ok(true) => place = start_of(bytes, row),
            Ok(false) => return Ok(bytes.len()),
            Err(_) => return Err(Memory),
        }
    }
    Ok(place)
}

// Where the record begins, behind the line breaks before it.
fn start_of(bytes: &[u8], row: &ByteRecord) -> usize
    ensures { result ≤ length bytes.now }
{
    let Some(position) = row.position() else {
        return bytes.len();
    };
    let Ok(from) = usize::try_from(position.byte()) else {
        return bytes.len();
    };
    for i in from..bytes.len() {
        if bytes[i] != b'\n' && bytes[i] != b'\r' {
            return i;
        }
    }
    bytes.len()
}
