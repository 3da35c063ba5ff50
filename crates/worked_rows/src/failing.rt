//! How the store and the sinks of a call fail.

use base_memory::Memory;
use base_text::store::{MemorySink, MemoryStore};

/// How a store or a sink fails: at the pull or push of which number, from 1 on, and how many bytes of
/// one it moves at most. A number of 0 is none.
#[derive(Clone, Copy)]
pub struct Failing {
    // This one fails.
    at: u32,
    // This one takes nothing, without an error.
    takes_none_at: u32,
    // At most so many bytes.
    most: u32,
}

/// How those of the next call fail.
#[derive(Clone, Copy)]
pub struct Failings {
    pub store: Failing,
    pub out: Failing,
    pub err: Failing,
}

const SOUND: Failing = Failing {
    at: 0,
    takes_none_at: 0,
    most: 0,
};

/// Nothing fails.
pub const ALL_SOUND: Failings = Failings {
    store: SOUND,
    out: SOUND,
    err: SOUND,
};

/// What fails once the line is read too, or None where it says nothing of that: `fail WHAT: NUMBER`,
/// `refuse WHAT: NUMBER` or `slow WHAT: NUMBER`, where WHAT is `store`, `out` or `err`.
pub fn read_failing(line: &str, all: Failings) -> Option<Failings> {
    let (words, number) = line.split_once(": ")?;
    let (how, what) = words.split_once(' ')?;
    let number = number.parse::<u32>().ok()?;
    let mut all = all;
    let is_read = match what {
        "store" => set(how, number, &mut all.store),
        "out" => set(how, number, &mut all.out),
        "err" => set(how, number, &mut all.err),
        _ => false,
    };
    if is_read { Some(all) } else { None }
}

// Sets the number of one that fails so, and answers whether there is such a word.
fn set(how: &str, number: u32, failing: &mut Failing) -> bool {
    match how {
        "fail" => failing.at = number,
        "refuse" => failing.takes_none_at = number,
        "slow" => failing.most = number,
        _ => return false,
    }
    true
}

/// Lets a store fail so.
pub fn fail_store(store: &mut MemoryStore, failing: Failing) -> Result<(), Memory> {
    store.fail_at(failing.at as u64)?;
    if failing.most > 0 {
        store.give_at_most(failing.most);
    }
    Ok(())
}

/// Lets a sink fail so.
pub fn fail_sink(sink: &mut MemorySink, failing: Failing) -> Result<(), Memory> {
    sink.fail_at(failing.at as u64)?;
    sink.take_none_at(failing.takes_none_at as u64)?;
    if failing.most > 0 {
        sink.take_at_most(failing.most);
    }
    Ok(())
}
