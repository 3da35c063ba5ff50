//! Why what is asked for is not done.

ghost use Rattle.std.specs.Prelude.{◌≡◌};
ghost use Rattle.call_answer.specs.Sinks.{Puts, sink_view};
ghost use Rattle.call_refused.specs.told.Unread.{unread_line};
ghost use Rattle.call_records.specs.{Halts.halt_line, Halts.status_of as end_status, Request.request_of};
ghost use Rattle.call_records.specs.declared.halt.Halt.TheVariants as halt_of;

use base_files::Reason;
use base_text::store::{PutFailed, Sink};
use call_answer::put_pieces;
use call_ask::RecordsAsk;
use model_line::Memory;
use std::alloc::{AllocError, AllocFailed};

/// A file that is read.
#[derive(Drop)]
pub enum File {
    Line,
    Map,
    /// A configuration, or data, by its name in the store.
    Recorder(Vec<u8>),
}

/// Why it is not done.
#[derive(Drop)]
pub enum Halt {
    /// A file is too long, or says something that is refused: the line that tells it,
    /// `FILE:LINE:COLUMN: WHAT`.
    Refused(Vec<u8>),
    /// The file could not be read.
    Store(File),
    /// The text could not be written.
    Sink,
    /// Memory ran out.
    Memory,
}

impl File {
    ghost use Rattle.call_records.specs.{Halts.name_of, Request.request_of};

    /// Its name in the store.
    pub fn name<'a>(&'a self, ask: &RecordsAsk<'a>) -> &'a [u8]
        ensures { result.now ≡ name_of (request_of ask.now) self.now }
    {
        match self {
            File::Line => ask.line.as_bytes(),
            File::Map => ask.map.as_bytes(),
            File::Recorder(name) => name.as_slice(),
        }
    }
}

impl Halt {
    ghost use Rattle.call_records.specs.Halts.{halt_status};

    /// The exit status, 5 to 8.
    pub fn status(&self) -> u8
        ensures { result ≡ halt_status self.now }
    {
        match self {
            Halt::Refused(_) => 5,
            Halt::Store(_) => 6,
            Halt::Sink => 7,
            Halt::Memory => 8,
        }
    }
}

/// The exit status of a call that ended so: 0 where it is done.
pub fn status_of(end: &Result<(), Halt>) -> u8
    ensures { result ≡ end_status end.now }
{
    match end {
        Ok(_) => 0,
        Err(halt) => halt.status(),
    }
}

/// Pushes the line that says it, with the reason of the store's latest fault. Of the output, which has
/// no name here, nothing is said.
pub fn put_halt<K: Sink>(
    sink: &mut K,
    ask: &RecordsAsk<'_>,
    reason: Reason,
    halt: &Halt,
) -> Result<(), PutFailed>
    ensures { Puts (sink_view K.written K.faults sink.old) (sink_view K.written K.faults sink.new)
        (halt_line (request_of ask.now) reason halt.now) result }
{
    match halt {
        Halt::Refused(line) => put_pieces(sink, &[line.as_slice()]),
        Halt::Store(file) => put_unread(sink, file.name(ask), reason),
        Halt::Sink => Ok(()),
        Halt::Memory => put_pieces(sink, &[b"out of memory\n"]),
    }
}

// Pushes that a file of this name is not read, and why.
fn put_unread<'a, K: Sink>(sink: &mut K, name: &'a [u8], reason: Reason) -> Result<(), PutFailed>
    ensures { Puts (sink_view K.written K.faults sink.old) (sink_view K.written K.faults sink.new)
        (unread_line name.now reason) result }
{
    let why: &'a [u8] = reason.words().as_bytes();
    put_pieces(sink, &[name, b": cannot be read: ", why, b"\n"])
}

impl From<Memory> for Halt {
    ghost from_gives = { λ _ halt. halt ≡ halt_of.Memory };

    fn from(_: Memory) -> Self {
        Halt::Memory
    }
}

impl From<AllocError> for Halt {
    ghost from_gives = { λ _ halt. halt ≡ halt_of.Memory };

    fn from(_: AllocError) -> Self {
        Halt::Memory
    }
}

impl<T: Drop> From<AllocFailed<T>> for Halt {
    ghost from_gives = { λ _ halt. halt ≡ halt_of.Memory };

    fn from(_: AllocFailed<T>) -> Self {
        Halt::Memory
    }
}

impl From<PutFailed> for Halt {
    ghost from_gives = { λ _ halt. halt ≡ halt_of.Sink };

    fn from(_: PutFailed) -> Self {
        Halt::Sink
    }
}
