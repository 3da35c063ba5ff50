//! In which colour a field is told.

ghost use Rattle.std.specs.Prelude.{◌≡◌, ◌++◌, OnOk, codes, if◌then◌else◌};
ghost use Rattle.std.specs.Str.{bytes_eq};
ghost use Rattle.call_columns.specs.Lines.{begins_tone, ends_tone, told_in, tone_if};
ghost use Rattle.call_columns.specs.Lines.{tone_of as tone_by};

use crate::column::Kind;
use base_memory::Memory;
use base_records::is;

/// Without a colour; as what is held (green), what fails (red), what is open (yellow).
#[derive(Clone, Copy)]
pub enum Tone {
    Plain,
    Held,
    Failing,
    Unsure,
}

/// How a field of a column of this kind is told, where colours are.
pub fn tone_of(is_colored: bool, kind: Kind, field: &[u8]) -> Tone
    ensures { result ≡ tone_if is_colored kind field.now }
{
    if !is_colored {
        return Tone::Plain;
    }
    match kind {
        Kind::Answer => tone_of_answer(field),
        Kind::Fails => tone_unless_none(field, Tone::Failing),
        Kind::Open => tone_unless_none(field, Tone::Unsure),
        Kind::Other => Tone::Plain,
    }
}

fn tone_of_answer(field: &[u8]) -> Tone
    ensures { result ≡ tone_by Kind.Answer field.now }
{
    if is(field, b"held") {
        Tone::Held
    } else if is(field, b"fails") {
        Tone::Failing
    } else if is(field, b"open") {
        Tone::Unsure
    } else {
        Tone::Plain
    }
}

// That of a count that isn't 0.
fn tone_unless_none(field: &[u8], tone: Tone) -> Tone
    ensures { result ≡ if bytes_eq field.now (codes "0") then Tone.Plain else tone }
{
    if is(field, b"0") { Tone::Plain } else { tone }
}

/// Appends a field in its colour.
pub fn push_told(text: &mut Vec<u8>, tone: Tone, field: &[u8]) -> Result<(), Memory>
    ensures { OnOk result (text.new.items ≡ text.old.items ++ told_in tone field.now) }
{
    text.extend_from_slice(begin_of(tone))?;
    text.extend_from_slice(field)?;
    text.extend_from_slice(end_of(tone))?;
    Ok(())
}

fn begin_of(tone: Tone) -> &'static [u8]
    ensures { result.now ≡ begins_tone tone }
{
    match tone {
        Tone::Plain => b"",
        Tone::Held => b"\x1b[32m",
        Tone::Failing => b"\x1b[31m",
        Tone::Unsure => b"\x1b[33m",
    }
}

fn end_of(tone: Tone) -> &'static [u8]
    ensures { result.now ≡ ends_tone tone }
{
    match tone {
        Tone::Plain => b"",
        Tone::Held | Tone::Failing | Tone::Unsure => b"\x1b[0m",
    }
}
