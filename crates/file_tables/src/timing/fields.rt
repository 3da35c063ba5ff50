//! The fields of a record.

ghost use Rattle.std.specs.Prelude.{◌≡◌, option_map};
ghost use Rattle.csv.specs.Records.{fields_of};
ghost use Rattle.file_tables.specs.timing.Row.{row_in, row_of};

use base_records::three_fields;
use csv::ByteRecord;

/// The three fields of a record that has three.
#[derive(Clone, Copy)]
pub struct Fields<'a> {
    pub name: &'a [u8],
    pub parameter: &'a [u8],
    pub value: &'a [u8],
}

/// The fields of a record, where it has three.
pub fn fields_in(row: &ByteRecord) -> Option<Fields<'_>>
    ensures { option_map row_of result ≡ row_in (fields_of row.now) }
{
    match three_fields(row) {
        Some((name, parameter, value)) => Some(Fields {
            name,
            parameter,
            value,
        }),
        None => None,
    }
}
