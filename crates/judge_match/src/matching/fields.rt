//! The fields of a record.

ghost use Rattle.std.specs.Prelude.{◌≡◌, option_map};
ghost use Rattle.csv.specs.Records.{fields_of};
ghost use Rattle.judge_match.specs.matching.Row.{row_in, row_of};

use base_records::five_fields;
use csv::ByteRecord;

/// The five fields of a record that has five.
#[derive(Clone, Copy)]
pub struct Fields<'a> {
    pub name: &'a [u8],
    pub tick: &'a [u8],
    pub terminal: &'a [u8],
    pub signal: &'a [u8],
    pub level: &'a [u8],
}

/// The fields of a record, where it has five.
pub fn fields_in(row: &ByteRecord) -> Option<Fields<'_>>
    ensures { option_map row_of result ≡ row_in (fields_of row.now) }
{
    match five_fields(row) {
        Some((name, tick, terminal, signal, level)) => Some(Fields {
            name,
            tick,
            terminal,
            signal,
            level,
        }),
        None => None,
    }
}
