//! Reading a file of records.

ghost use Rattle.std.specs.Prelude.{◌≡◌, ◌≤◌, ◌<◌, ◌+◌, ◌-◌, ◌^◌, ℕ, List, Ok, IfOk, IsTrue};
ghost use Rattle.std.specs.Prelude.{length};
ghost use Rattle.base_records.specs.Left.{IsReading, left_of};
ghost use Rattle.base_memory.specs.Gives.{Gives};
ghost use Rattle.base_records.specs.{RecordFile.after_header, RecordFile.said_of};

use crate::reader::RecordReader;
use crate::rows::{next_row, rows_of};
use base_memory::Stopped;
use csv::{ByteRecord, Reader};
use std::alloc::Global;

/// What the records of a file say, or its first fault. One record is held at a time.
///
/// The caller shows that what holds before a record holds before the next one, and that a number
/// before which it holds has one after it.
pub fn read_file<R: RecordReader>(
    alloc: Global,
    reader: &R,
    bytes: &[u8],
) -> Result<R::Reading, Stopped<R::Fault>>
    requires starts { R.Before reader.now 2 (R.file reader.now).start }
    requires goes_on { (n : ℕ) (s t : R.Said) (fields : List (List ℕ)) → R.Before reader.now n s →
        (R.file reader.now).after s n fields ≡ Ok t → R.Before reader.now (n + 1) t }
    requires numbers { (n : ℕ) (s : R.Said) → n ≤ length bytes.now + 2 → R.Before reader.now n s →
        n < 2 ^ 32 - 1 }
    ensures said { Gives R.said result (said_of (R.file reader.now) bytes.now) }
    ensures before { IfOk result (λ reading. (n : ℕ) × (2 < n)
        × R.Before reader.now n (R.said reading)) }
{
    let mut rows = rows_of(alloc, bytes);
    let mut header = ByteRecord::new(alloc);
    if next_row(&mut rows, &mut header)? && reader.is_header(&header) {
        read_rows(alloc, reader, rows)
    } else {
        Err(Stopped::Fault(reader.no_header()))
    }
}

// What the records behind the header say.
fn read_rows<R: RecordReader>(
    alloc: Global,
    reader: &R,
    rows: Reader<&[u8]>,
) -> Result<R::Reading, Stopped<R::Fault>>
    requires reading { IsReading rows }
    requires starts { R.Before reader.now 2 (R.file reader.now).start }
    requires goes_on { (n : ℕ) (s t : R.Said) (fields : List (List ℕ)) → R.Before reader.now n s →
        (R.file reader.now).after s n fields ≡ Ok t → R.Before reader.now (n + 1) t }
    requires numbers { (n : ℕ) (s : R.Said) → n ≤ length (left_of rows) + 2
        → R.Before reader.now n s → n < 2 ^ 32 - 1 }
    ensures said { Gives R.said result
        (after_header (R.file reader.now) (left_of rows.entry)) }
    ensures before { IfOk result (λ reading. (n : ℕ) × (2 < n)
        × R.Before reader.now n (R.said reading)) }
{
    let mut rows = rows;
    let mut row = ByteRecord::new(alloc);
    let mut reading = reader.start(alloc);
    let mut n = 2;
    'rows: while next_row(&mut rows, &mut row)? {
        reading = reader.after(alloc, reading, n, &row)?;
        n += 1;
    }
    if n == 2 {
        return Err(Stopped::Fault(reader.no_record()));
    }
    Ok(reading)
}
