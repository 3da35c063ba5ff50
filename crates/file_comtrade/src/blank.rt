//! Blank lines.

ghost use Rattle.std.specs.Prelude.{◌≡◌, drop};
ghost use Rattle.std.specs.List.{list_all};
ghost use Rattle.file_comtrade.specs.{Text.is_blank, Views.texts};

use crate::text::trimmed;

/// Whether nothing stands there but blanks.
pub fn is_blank(text: &[u8]) -> bool
    ensures { result ≡ is_blank text.now }
{
    trimmed(text).is_empty()
}

fn are_blank(lines: &[&[u8]]) -> bool
    ensures { result ≡ list_all is_blank (texts lines.now) }
{
    for line in lines {
        if !is_blank(line) {
            return false;
        }
    }
    true
}

/// Whether the lines from this index on are blank.
pub fn blank_from(lines: &[&[u8]], k: usize) -> bool
    ensures { result ≡ list_all is_blank (drop k (texts lines.now)) }
{
    match lines.get(k..) {
        Some(rest) => are_blank(rest),
        None => true,
    }
}
