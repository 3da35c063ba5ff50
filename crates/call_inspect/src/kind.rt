//! Of what kind a file is.

ghost use Rattle.std.specs.Prelude.{◌≡◌};
ghost use Rattle.call_inspect.specs.Kinds.{document_kind as kind_of_document, kind_by_text as by_text};
ghost use Rattle.call_inspect.specs.Kinds.{kind_of as kind_in, limit_of as limit};
ghost use Rattle.call_inspect.specs.Kinds.{record_kind as kind_of_records, text_kind as kind_of_text};

use crate::head::{begins_parted, behind_mark, has_ending, has_key, has_line};

/// What a file is.
#[derive(Clone, Copy, Drop)]
pub enum Kind {
    Study,
    Line,
    Scripts,
    Timings,
    /// Keys and trips of the field.
    Record,
    /// A map of the records of relays.
    Map,
    /// A certificate, of `pilot certify`.
    Certificate,
    /// Trees of splits, of `pilot split`.
    Splits,
    /// Settled trees, of `study settle --trees`.
    Trees,
    /// A configuration (COMTRADE).
    Config,
    /// A record in one file (COMTRADE).
    OneFile,
}

impl Kind {
    /// The most bytes that a file of the kind may have.
    pub fn limit(self) -> usize
        ensures { result ≡ limit self }
    {
        match self {
            Kind::Timings | Kind::Certificate | Kind::Splits => 4_194_304,
            Kind::Trees | Kind::OneFile => 67_108_864,
            Kind::Study | Kind::Line | Kind::Scripts | Kind::Record | Kind::Map | Kind::Config =>
                1_048_576,
        }
    }
}

/// The kind of a file of this name and these bytes, if it has one: by the ending of its name, by its
/// first words, or by a key at the beginning of a line.
pub fn kind_of(name: &[u8], bytes: &[u8]) -> Option<Kind>
    ensures { result ≡ kind_in name.now bytes.now }
{
    if has_ending(name, b".cfg") {
        Some(Kind::Config)
    } else if has_ending(name, b".cff") {
        Some(Kind::OneFile)
    } else {
        kind_by_text(behind_mark(bytes))
    }
}

fn kind_by_text(text: &[u8]) -> Option<Kind>
    ensures { result ≡ by_text text.now }
{
    if let Some(kind) = text_kind(text) {
        return Some(kind);
    }
    match record_kind(text) {
        Some(kind) => Some(kind),
        None => document_kind(text),
    }
}

// Of a text that is checked.
fn text_kind(text: &[u8]) -> Option<Kind>
    ensures { result ≡ kind_of_text text.now }
{
    if text.starts_with(b"pilot-cert ") {
        Some(Kind::Certificate)
    } else if text.starts_with(b"pilot-split ") {
        Some(Kind::Splits)
    } else if text.starts_with(b"study-trees ") {
        Some(Kind::Trees)
    } else {
        None
    }
}

// Of a file of records, whatever parts its fields.
fn record_kind(text: &[u8]) -> Option<Kind>
    ensures { result ≡ kind_of_records text.now }
{
    if begins_parted(b"script,item", b"script;item", b"script\titem", text) {
        Some(Kind::Scripts)
    } else if text.starts_with(b"\"script,item") {
        Some(Kind::Scripts)
    } else if begins_parted(b"script,tick", b"script;tick", b"script\ttick", text) {
        Some(Kind::Record)
    } else if begins_parted(
        b"timing,parameter",
        b"timing;parameter",
        b"timing\tparameter",
        text,
    ) {
        Some(Kind::Timings)
    } else {
        None
    }
}

// Of a TOML document.
fn document_kind(text: &[u8]) -> Option<Kind>
    ensures { result ≡ kind_of_document text.now }
{
    if has_key(b"study ", b"study\t", b"study=", text) {
        Some(Kind::Study)
    } else if has_line(b"[[recorder]]", text) {
        Some(Kind::Map)
    } else if has_key(b"version ", b"version\t", b"version=", text) {
        Some(Kind::Line)
    } else {
        None
    }
}
