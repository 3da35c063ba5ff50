//! All rows, one line of `cases` after another.

use crate::call::{Call, make_call, read_words};
use crate::change::read_change;
use crate::failing::{ALL_SOUND, read_failing};
use crate::fault::Fault;
use base_text::store::{Sink, Store, fetch, put_all};
use std::alloc::Global;

const LONGEST: u32 = 1_048_576;

/// Prints each line of the file `cases`, and what each call prints and answers.
pub fn run_rows<F: Store, O: Sink>(alloc: Global, files: &mut F, out: &mut O) -> Result<(), Fault> {
    let Ok(bytes) = fetch(alloc, files, "cases", LONGEST) else {
        return Err(Fault::Cases);
    };
    let Ok(cases) = std::str::from_utf8(bytes.as_slice()) else {
        return Err(Fault::Cases);
    };
    let mut next = Call {
        words: Vec::new(alloc),
        beside: Vec::new(alloc),
        changes: Vec::new(alloc),
        failing: ALL_SOUND,
        is_said: false,
    };
    for line in cases.lines() {
        take_line(alloc, line, &mut next, files, out)?;
    }
    if next.is_said {
        Err(Fault::NoCall)
    } else {
        Ok(())
    }
}

// Prints the line, and does what it says.
fn take_line<'a, F: Store, O: Sink>(
    alloc: Global,
    line: &'a str,
    next: &mut Call<'a>,
    files: &mut F,
    out: &mut O,
) -> Result<(), Fault> {
    put_all(out, line.as_bytes())?;
    put_all(out, b"\n")?;
    if line.is_empty() || line.starts_with('#') {
        return Ok(());
    }
    if !read_words(alloc, line, &mut next.words)? {
        return take_word(line, next);
    }
    make_call(alloc, next, files, out)?;
    next.words.clear();
    next.beside.clear();
    next.changes.clear();
    next.failing = ALL_SOUND;
    next.is_said = false;
    Ok(())
}

// Notes what the line says of the next call.
fn take_word<'a>(line: &'a str, next: &mut Call<'a>) -> Result<(), Fault> {
    next.is_said = true;
    if let Some(change) = read_change(line) {
        return noted(next.changes.push(change).is_ok());
    }
    if let Some(name) = line.strip_prefix("beside ") {
        return noted(next.beside.push(name).is_ok());
    }
    let Some(failing) = read_failing(line, next.failing) else {
        return Err(Fault::Line);
    };
    next.failing = failing;
    Ok(())
}

fn noted(is_noted: bool) -> Result<(), Fault> {
    if is_noted { Ok(()) } else { Err(Fault::Memory) }
}
