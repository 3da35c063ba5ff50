//! A list of names that are parted by commas.

ghost use Rattle.std.specs.Prelude.{◌≡◌, ◌≤◌, count_by, length};
ghost use Rattle.file_study.specs.times.Names.{is_comma, name_count, name_of};

use base_text::lines::find_byte;

/// Name k of the list, counted from 0.
pub fn name_in_list(names: &[u8], k: usize) -> &[u8]
    ensures { result.now ≡ name_of names.now k }
{
    let mut start = 0;
    for _ in 0..k {
        start = (start + find_byte(&names[start..], b',') + 1).min(names.len());
    }
    let rest = &names[start..];
    &rest[..find_byte(rest, b',')]
}

/// How many names there are.
pub fn count(names: &[u8]) -> usize
    ensures { result ≡ name_count names.now }
{
    commas(names) + 1
}

fn commas(names: &[u8]) -> usize
    ensures is { result ≡ count_by is_comma names.now }
    ensures few { result ≤ length names.now }
{
    names.iter().filter(|byte| **byte == b',').count()
}
