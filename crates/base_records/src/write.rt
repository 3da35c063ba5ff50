//! Records written.

ghost use Rattle.std.specs.Prelude.{◌≡◌, ◌++◌, IfOk, OnOk, map};
ghost use Rattle.csv.specs.Writing.{row_text, default_writer};

use base_memory::Memory;
use csv::WriterBuilder;
use std::alloc::Global;

/// Appends a record of these fields, as a CSV writer with the default settings writes it.
pub fn push_record(alloc: Global, text: &mut Vec<u8>, fields: &[&[u8]]) -> Result<(), Memory>
    ensures { OnOk result (text.new.items
        ≡ text.old.items ++ row_text default_writer (map (λ f. f.now) fields.now)) }
{
    let record = record_text(alloc, fields)?;
    text.extend_from_slice(record.as_slice())
        .map_err(|_| Memory)
}

// The text of a record. The writer writes to memory, so what it fails for is want of memory.
fn record_text(alloc: Global, fields: &[&[u8]]) -> Result<Vec<u8>, Memory>
    ensures { IfOk result (λ v. v.items ≡ row_text default_writer (map (λ f. f.now) fields.now)) }
{
    let mut writer = WriterBuilder::new().from_writer(Vec::new(alloc));
    if writer.write_fields(fields).is_err() {
        return Err(Memory);
    }
    writer.into_inner().map_err(|_| Memory)
}
