//! Lines on standard error.

use base_files::Reason;
use base_text::store::{StdSink, put_all};
use call_words::WordFault;

/// Tells a line of these pieces. Where standard error takes none there is nobody to tell.
pub fn tell(rt: &HostRuntime, pieces: &[&[u8]]) {
    let mut err = StdSink::new(rt.stderr());
    for piece in pieces {
        if put_all(&mut err, *piece).is_err() {
            return;
        }
    }
}

/// Tells which word is wrong, and what it has to be.
pub fn tell_word<'a>(rt: &HostRuntime, fault: &WordFault<'a>) {
    let word: &'a [u8] = fault.word.as_bytes();
    let wanted: &'a [u8] = fault.wanted.as_bytes();
    match fault.option {
        Some(option) => {
            let option: &'a [u8] = option.as_bytes();
            tell(rt, &[b"study: ", option, b" ", word, b": ", wanted, b"\n"]);
        }
        None => tell(rt, &[b"study: ", word, b": ", wanted, b"\n"]),
    }
}

/// Tells that something cannot be written, and why.
pub fn tell_unwritten<'a>(rt: &HostRuntime, name: &'a str, why: Reason) {
    let name: &'a [u8] = name.as_bytes();
    let words: &'a [u8] = why.words().as_bytes();
    tell(rt, &[name, b": cannot be written: ", words, b"\n"]);
}

/// Tells that a file to write is one that the call reads, and as what.
pub fn tell_input<'a>(rt: &HostRuntime, name: &'a str, what: &'a str) {
    tell(
        rt,
        &[
            b"study: --output ",
            name.as_bytes(),
            b": the call reads it as ",
            what.as_bytes(),
            b"; write another name\n",
        ],
    );
}

/// Tells that no obligation fails, so that there is no picture of one to write.
pub fn tell_no_picture<'a>(rt: &HostRuntime, name: &'a str, status: u8) {
    let found: &[u8] = if status == 0 {
        b"study: nothing fails: "
    } else {
        b"study: nothing is known to fail, and something is open: "
    };
    tell(rt, &[found, name.as_bytes(), b" is not written\n"]);
}
