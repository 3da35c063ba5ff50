//! What was done wrongly, as the bytes of a refused file show it.

ghost use Rattle.std.specs.Prelude.{◌≤◌, length};

use crate::places::line_text;
use crate::words::mistake::{Mistake, Wanted, mistake_of};
use crate::words::slip::{Slip, document_slip, record_slip};

/// What is wrong with bytes that are no TOML document from this place on, and what to write.
pub fn toml_words(bytes: &[u8], at: usize, is_twice: bool) -> &'static str
    requires { at ≤ length bytes.now }
{
    if let Some(mistake) = mistake_of(Wanted::Document, bytes) {
        return mistake_words(mistake);
    }
    if is_twice {
        return twice_words(&bytes[at..]);
    }
    match document_slip(line_text(bytes, at)) {
        None => "; write KEY = VALUE, with texts in quotes",
        slip => slip_words(slip),
    }
}

// What is wrong with a key or a table that stands before.
fn twice_words(rest: &[u8]) -> &'static str {
    if rest.starts_with(b"[") {
        ": this table stands before; write [[ ]] around the name of each table of a list, as [[fault]]"
    } else {
        ": this key stands before; write each key of a table once, and [[ ]] around the name of each table of a list"
    }
}

/// The mistake that a file of records shows, or else one of the record at the place.
pub fn record_words(bytes: &[u8], at: usize) -> &'static str
    requires { at ≤ length bytes.now }
{
    match mistake_of(Wanted::Records, bytes) {
        Some(mistake) => mistake_words(mistake),
        None => slip_words(record_slip(line_text(bytes, at))),
    }
}

fn mistake_words(mistake: Mistake) -> &'static str {
    match mistake {
        Mistake::Utf16 => "; the file is UTF-16: save it as UTF-8",
        Mistake::ByteOrderMark =>
            "; the file begins with a byte order mark: save it as UTF-8 without one",
        Mistake::QuotedLines => "; each record stands within quotes: save it without them",
        Mistake::Semicolons => "; its fields are parted by semicolons: save it with commas",
        Mistake::Tabs => "; its fields are parted by tabs: save it with commas",
        Mistake::TomlForScripts => "; this is TOML: are the two files swapped?",
        Mistake::ScriptsForToml => "; these are scripts: are the two files swapped?",
    }
}

fn slip_words(slip: Option<Slip>) -> &'static str {
    match slip {
        Some(Slip::Comment) => "; a file of scripts has no comments",
        Some(Slip::OnlyCommas) => "; commas alone, as a spreadsheet leaves them: remove the record",
        Some(Slip::Blank) => "; a blank stands in it: names and numbers have none",
        Some(Slip::Point) => "; a point stands in it: ticks are whole numbers",
        Some(Slip::Semicolon) => "; a semicolon stands in it: write a comma",
        Some(Slip::DecimalComma) =>
            "; a comma stands between two digits: write a decimal point in a study, and in a line file whole numbers, of an interval as [2, 4]",
        None => "",
    }
}
