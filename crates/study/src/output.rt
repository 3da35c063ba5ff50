//! Where the text of a call goes: to standard output, or to a file.

use crate::call::told_as;
use crate::inputs::{is_input, was_read};
use crate::look::{shown_in_file, shown_on_output};
use crate::status::{DONE, FAILS, SINK, USAGE};
use crate::told::{tell_no_picture, tell_unwritten};
use base_files::{KeptStore, NewFile, WriterSink};
use call_ask::Work;
use call_words::{Call, Look};

/// The exit status of a call whose text goes to standard output.
pub fn to_standard_output(rt: &HostRuntime, call: &Call<'_>, look: Look) -> u8 {
    let mut store = KeptStore::new(rt, rt.alloc());
    let mut out = WriterSink::new(rt.stdout());
    let shown = shown_on_output(rt, call, look);
    let status = told_as(rt, call, shown, &mut store, &mut out);
    if status == SINK {
        tell_unwritten(rt, "standard output", out.reason());
    }
    status
}

/// The exit status of a call whose text goes to the file of this name, which is none that it reads.
pub fn to_file(rt: &HostRuntime, call: &Call<'_>, look: Look, name: &str) -> u8 {
    if is_input(rt, call, name) {
        return USAGE;
    }
    let mut store = KeptStore::new(rt, rt.alloc());
    let mut out = NewFile::new(rt, rt.alloc(), name);
    let shown = shown_in_file(call, look);
    let mut status = told_as(rt, call, shown, &mut store, &mut out);
    if status <= DONE && was_read(rt, &store, name) {
        status = USAGE;
    }
    let is_kept = status <= DONE && has_picture(call, status);
    if out.close(is_kept).is_err() {
        status = SINK;
    }
    if status == SINK {
        tell_unwritten(rt, name, out.reason());
    } else if status <= DONE && !is_kept {
        tell_no_picture(rt, name, status);
    }
    status
}

// Whether there is something to write to a file: of why an obligation fails there is a picture where one
// does.
fn has_picture(call: &Call<'_>, status: u8) -> bool {
    match call {
        Call::Study(ask) => match ask.work {
            Work::Why(_) => status == FAILS,
            _ => true,
        },
        _ => true,
    }
}
