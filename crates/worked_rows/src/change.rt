//! A change of a file, for one call.

use crate::fault::Fault;
use std::alloc::{AllocError, Global};

/// What is changed in a file: `in FILE: OLD -> NEW`, `throughout FILE: OLD -> NEW` or
/// `fill FILE: BYTE -> LENGTH`. In OLD, NEW and BYTE a line end is written `\n`, a carriage return
/// `\r` and a tab `\t`.
#[derive(Clone, Copy)]
pub struct Change<'a> {
    /// The file's name.
    pub file: &'a str,
    how: How,
    // Both texts as they are written.
    old: &'a str,
    new: &'a str,
}

#[derive(Clone, Copy)]
enum How {
    // The old text stands once.
    Once,
    // The old text stands at least once, and is changed wherever it stands.
    Throughout,
    // The file is filled up with the old text, a byte, to a length.
    Fill,
}

// How a line end, a carriage return and a tab are written.
const SIGNS: &[(&str, &str)] = &[("\\n", "\n"), ("\\r", "\r"), ("\\t", "\t")];

/// The change that the line says, or None where it says none.
pub fn read_change<'a>(line: &'a str) -> Option<Change<'a>> {
    let (word, rest) = line.split_once(' ')?;
    let how = match word {
        "in" => How::Once,
        "throughout" => How::Throughout,
        "fill" => How::Fill,
        _ => return None,
    };
    let (file, texts) = rest.split_once(": ")?;
    let (old, new) = texts.split_once(" ->")?;
    Some(Change {
        file,
        how,
        old,
        new: new.strip_prefix(' ').unwrap_or(new),
    })
}

/// Changes the bytes of the file.
pub fn make_change(alloc: Global, change: Change<'_>, bytes: &mut Vec<u8>) -> Result<(), Fault> {
    let old = written_out(alloc, change.old)?;
    let new = written_out(alloc, change.new)?;
    match change.how {
        How::Once => replace(alloc, old.as_str(), new.as_str(), true, bytes),
        How::Throughout => replace(alloc, old.as_str(), new.as_str(), false, bytes),
        How::Fill => fill(old.as_bytes(), new.as_str(), bytes),
    }
}

// The text with each sign of a line end, a carriage return and a tab as what it stands for.
fn written_out(alloc: Global, text: &str) -> Result<String, AllocError> {
    let mut text = String::from_str(alloc, text)?;
    for (sign, meant) in SIGNS {
        text = text.as_str().replace(alloc, *sign, *meant)?;
    }
    Ok(text)
}

// Puts the new text where the old one stands, which may be once alone.
fn replace(
    alloc: Global,
    old: &str,
    new: &str,
    is_once: bool,
    bytes: &mut Vec<u8>,
) -> Result<(), Fault> {
    let Ok(text) = std::str::from_utf8(bytes.as_slice()) else {
        return Err(Fault::Text);
    };
    let Some((_, rest)) = text.split_once(old) else {
        return Err(Fault::Absent);
    };
    if is_once && rest.contains(old) {
        return Err(Fault::Twice);
    }
    let text = text.replace(alloc, old, new)?;
    *bytes = text.into_bytes();
    Ok(())
}

// Fills the bytes up to this length with the one byte.
fn fill(byte: &[u8], length: &str, bytes: &mut Vec<u8>) -> Result<(), Fault> {
    let ([byte], Ok(length)) = (byte, length.parse::<usize>()) else {
        return Err(Fault::Fill);
    };
    if length < bytes.len() || length > 4_194_305 {
        return Err(Fault::Fill);
    }
    bytes.resize(length, *byte)?;
    Ok(())
}
