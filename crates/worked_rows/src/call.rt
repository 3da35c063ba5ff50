//! A call of a program over files, and how it ends.

use crate::change::{Change, make_change};
use crate::failing::{Failings, fail_sink, fail_store};
use crate::fault::Fault;
use crate::programs::call;
use base_memory::Stopped;
use base_text::store::{FetchFault, MemorySink, MemoryStore, Sink, Store, fetch, put_all};
use itoa::Buffer;
use std::alloc::{AllocError, Global};

/// The longest file that is read.
pub const LONGEST: u32 = 4_194_304;

// More than any text has.
const LONGEST_TEXT: u32 = 65_536;

// More than any line on standard error has.
const LONGEST_MESSAGE: u32 = 4096;

/// A call: its words, of which the first names a program, and what was said of it.
#[derive(Drop)]
pub struct Call<'a> {
    pub words: Vec<String>,
    /// The files beside those of the words: those that a file names.
    pub beside: Vec<&'a str>,
    pub changes: Vec<Change<'a>>,
    pub failing: Failings,
    /// Whether anything was said of it.
    pub is_said: bool,
}

/// Reads the words that a line has behind `$`, where `''` is the empty one and `\s` a blank in one,
/// and answers whether the line is a call.
pub fn read_words(alloc: Global, line: &str, words: &mut Vec<String>) -> Result<bool, AllocError> {
    let mut spelled = line.split_whitespace();
    if spelled.next() != Some("$") {
        return Ok(false);
    }
    for word in spelled {
        let word = if word == "''" { "" } else { word };
        words.push(word.replace(alloc, "\\s", " ")?)?;
    }
    Ok(true)
}

/// Makes the call over the files, as the changes make them, with a store and sinks that fail so: its
/// text goes to `out`, and then its line on standard error, behind `err: `, and its status.
pub fn make_call<F: Store, O: Sink>(
    alloc: Global,
    made: &Call<'_>,
    files: &mut F,
    out: &mut O,
) -> Result<(), Fault> {
    let mut text = MemorySink::new(alloc, LONGEST_TEXT)?;
    let mut err = MemorySink::new(alloc, LONGEST_MESSAGE)?;
    let mut store = MemoryStore::new(alloc);
    put_call(alloc, made, files, &mut store, &mut text, &mut err, out)
}

// Makes the call over a store, a text and a line that are empty, and puts how it ended.
fn put_call<F: Store, O: Sink>(
    alloc: Global,
    made: &Call<'_>,
    files: &mut F,
    store: &mut MemoryStore,
    text: &mut MemorySink,
    err: &mut MemorySink,
    out: &mut O,
) -> Result<(), Fault> {
    fail_store(store, made.failing.store)?;
    fail_sink(text, made.failing.out)?;
    fail_sink(err, made.failing.err)?;
    hold_files(alloc, made, files, store)?;
    let status = call(alloc, made.words.as_slice(), store, text, err)?;
    put_lines(out, b"", text.written())?;
    put_lines(out, b"err: ", err.written())?;
    put_lines(out, b"status ", Buffer::new().format(status).as_bytes())
}

// Puts what was written behind these words, if there is anything. Where it ends within a line, that
// line is ended.
fn put_lines<O: Sink>(out: &mut O, words: &[u8], written: &[u8]) -> Result<(), Fault> {
    if written.is_empty() {
        return Ok(());
    }
    put_all(out, words)?;
    put_all(out, written)?;
    if !written.ends_with(b"\n") {
        put_all(out, b"\n")?;
    }
    Ok(())
}

// Holds the files that the words behind the program and its command name, and those beside them, as
// the changes make them.
fn hold_files<F: Store>(
    alloc: Global,
    made: &Call<'_>,
    files: &mut F,
    store: &mut MemoryStore,
) -> Result<(), Fault> {
    for change in made.changes.as_slice() {
        if !has_word(made.words.as_slice(), change.file) && !made.beside.contains(&change.file) {
            return Err(Fault::File);
        }
    }
    for word in made.words.iter().skip(2) {
        hold_file(alloc, word.as_str(), made.changes.as_slice(), files, store)?;
    }
    for name in made.beside.as_slice() {
        hold_file(alloc, *name, made.changes.as_slice(), files, store)?;
    }
    Ok(())
}

fn has_word(words: &[String], wanted: &str) -> bool {
    for word in words {
        if word.as_str() == wanted {
            return true;
        }
    }
    false
}

// Holds the file of that name, if there is one, as the changes make it.
fn hold_file<F: Store>(
    alloc: Global,
    name: &str,
    changes: &[Change<'_>],
    files: &mut F,
    store: &mut MemoryStore,
) -> Result<(), Fault> {
    match fetch(alloc, files, name, LONGEST) {
        Ok(bytes) => hold_changed(alloc, name, changes, bytes, store),
        Err(Stopped::Fault(FetchFault::Failed)) if !is_changed(changes, name) => Ok(()),
        Err(why) => Err(why.into()),
    }
}

fn is_changed(changes: &[Change<'_>], name: &str) -> bool {
    for change in changes {
        if change.file == name {
            return true;
        }
    }
    false
}

// Holds the bytes, as the changes of the file make them.
fn hold_changed(
    alloc: Global,
    name: &str,
    changes: &[Change<'_>],
    bytes: Vec<u8>,
    store: &mut MemoryStore,
) -> Result<(), Fault> {
    let mut bytes = bytes;
    for change in changes {
        if change.file == name {
            make_change(alloc, *change, &mut bytes)?;
        }
    }
    store.hold(name, bytes.as_slice())?;
    Ok(())
}
