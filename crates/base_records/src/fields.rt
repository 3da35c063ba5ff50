//! The fields of a record.

ghost use Rattle.std.specs.Prelude.{◌≡◌, ◌≢◌, ◌<◌, [], ◌∷◌, MatchOption, Some, length};
ghost use Rattle.std.specs.Str.{bytes_eq};
ghost use Rattle.csv.specs.Records.{fields_of, field_at};
ghost use Rattle.base_records.specs.Fields.{are_fields, is_empty, level_named};

use csv::ByteRecord;

/// The field at a place that the record has, the first being 0.
pub fn field(row: &ByteRecord, i: usize) -> &[u8]
    requires { i < length (fields_of row.now) }
    ensures { field_at (fields_of row.now) i ≡ Some result.now }
{
    match row.get(i) {
        Some(field) => field,
        None => unreachable!(),
    }
}

/// The fields of a record that has three.
pub fn three_fields(row: &ByteRecord) -> Option<(&[u8], &[u8], &[u8])>
    ensures { MatchOption result (length (fields_of row.now) ≢ 3)
        (λ f. fields_of row.now ≡ f.0.now ∷ f.1.now ∷ f.2.now ∷ []) }
{
    if row.len() != 3 {
        return None;
    }
    Some((field(row, 0), field(row, 1), field(row, 2)))
}

/// The fields of a record that has five.
pub fn five_fields(row: &ByteRecord) -> Option<(&[u8], &[u8], &[u8], &[u8], &[u8])>
    ensures { MatchOption result (length (fields_of row.now) ≢ 5)
        (λ f. fields_of row.now ≡ f.0.now ∷ f.1.now ∷ f.2.now ∷ f.3.now ∷ f.4.now ∷ []) }
{
    if row.len() != 5 {
        return None;
    }
    Some((
        field(row, 0),
        field(row, 1),
        field(row, 2),
        field(row, 3),
        field(row, 4),
    ))
}

/// Whether the record has exactly these three fields.
pub fn has_three(row: &ByteRecord, a: &[u8], b: &[u8], c: &[u8]) -> bool
    ensures { result ≡ are_fields (a.now ∷ b.now ∷ c.now ∷ []) (fields_of row.now) }
{
    match three_fields(row) {
        Some((f, g, h)) => is(f, a) && is(g, b) && is(h, c),
        None => false,
    }
}

/// Whether the record has exactly these five fields.
pub fn has_five(row: &ByteRecord, a: &[u8], b: &[u8], c: &[u8], d: &[u8], e: &[u8]) -> bool
    ensures { result
        ≡ are_fields (a.now ∷ b.now ∷ c.now ∷ d.now ∷ e.now ∷ []) (fields_of row.now) }
{
    match five_fields(row) {
        Some((f, g, h, i, j)) => is(f, a) && is(g, b) && is(h, c) && is(i, d) && is(j, e),
        None => false,
    }
}

/// Whether a field is that word.
pub fn is(field: &[u8], word: &[u8]) -> bool
    ensures { result ≡ bytes_eq field.now word.now }
{
    field == word
}

/// Whether nothing is in a field.
pub fn is_nothing(field: &[u8]) -> bool
    ensures { result ≡ is_empty field.now }
{
    matches!(field, [])
}

/// A level, `0` or `1`.
pub fn level_named(field: &[u8]) -> Option<bool>
    ensures { result ≡ level_named field.now }
{
    if is(field, b"0") {
        Some(false)
    } else if is(field, b"1") {
        Some(true)
    } else {
        None
    }
}
