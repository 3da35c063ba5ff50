//! Why a call is not done.

ghost use Rattle.std.specs.Prelude.{[], ◌≡◌, get_or, map};
ghost use Rattle.call_answer.specs.Sinks.{Puts, sink_view};
ghost use Rattle.call_refused.specs.told.Unread.{unread_line};
ghost use Rattle.call_inspect.specs.Halts.{halt_line, status_of as end_status};
ghost use Rattle.call_inspect.specs.declared.halt.Halt.TheVariants as halt_of;

use base_files::Reason;
use base_memory::Memory;
use base_text::store::{PutFailed, Sink};
use call_answer::{Done, put_pieces};
use std::alloc::{AllocError, AllocFailed};

/// Why it is not done.
#[derive(Clone, Copy, Drop)]
pub enum Halt {
    /// The file at this place of the words could not be read.
    Unread(usize),
    /// The text could not be written.
    Sink,
    /// Memory ran out.
    Memory,
}

/// The exit status of a call that ended so: 0, 2 or 3 where it is done, else 6 to 8.
pub fn status_of(end: Result<Done, Halt>) -> u8
    ensures { result ≡ end_status end }
{
    match end {
        Ok(Done::Good) => 0,
        Ok(Done::SomeNo) => 1,
        Ok(Done::SomeUndecided) => 2,
        Ok(Done::Rejected) => 3,
        Err(Halt::Unread(_)) => 6,
        Err(Halt::Sink) => 7,
        Err(Halt::Memory) => 8,
    }
}

/// Pushes the line that says it, with the reason of the store's latest fault. Of the output, which has
/// no name here, nothing is said.
pub fn put_halt<K: Sink>(
    sink: &mut K,
    names: &[&str],
    reason: Reason,
    halt: Halt,
) -> Result<(), PutFailed>
    ensures { Puts (sink_view K.written K.faults sink.old) (sink_view K.written K.faults sink.new)
        (halt_line (map (λ name. name.now) names.now) reason halt) result }
{
    match halt {
        Halt::Unread(place) => put_unread(sink, name_at(names, place), reason),
        Halt::Sink => Ok(()),
        Halt::Memory => put_pieces(sink, &[b"out of memory\n"]),
    }
}

// The name at this place.
fn name_at<'a>(names: &[&'a str], place: usize) -> &'a str
    ensures { result.now ≡ get_or (map (λ name. name.now) names.now) place [] }
{
    match names.get(place) {
        Some(name) => *name,
        None => "",
    }
}

// Pushes that a file of this name is not read, and why.
fn put_unread<'a, K: Sink>(sink: &mut K, name: &'a str, reason: Reason) -> Result<(), PutFailed>
    ensures { Puts (sink_view K.written K.faults sink.old) (sink_view K.written K.faults sink.new)
        (unread_line name.now reason) result }
{
    let name: &'a [u8] = name.as_bytes();
    let why: &'a [u8] = reason.words().as_bytes();
    put_pieces(sink, &[name, b": cannot be read: ", why, b"\n"])
}

impl From<Memory> for Halt {
    ghost from_gives = { λ _ halt. halt ≡ halt_of.Memory };

    fn from(_: Memory) -> Self {
        Halt::Memory
    }
}

impl From<AllocError> for Halt {
    ghost from_gives = { λ _ halt. halt ≡ halt_of.Memory };

    fn from(_: AllocError) -> Self {
        Halt::Memory
    }
}

impl<T: Drop> From<AllocFailed<T>> for Halt {
    ghost from_gives = { λ _ halt. halt ≡ halt_of.Memory };

    fn from(_: AllocFailed<T>) -> Self {
        Halt::Memory
    }
}

impl From<PutFailed> for Halt {
    ghost from_gives = { λ _ halt. halt ≡ halt_of.Sink };

    fn from(_: PutFailed) -> Self {
        Halt::Sink
    }
}
