//! What ends the rows before their last one.

use base_memory::{Memory, Stopped};
use base_text::store::{FetchFault, PutFailed};
use std::alloc::AllocError;

/// Why a line of `cases` is not done, or nothing of it can be read.
#[derive(Clone, Copy)]
pub enum Fault {
    /// The file `cases` cannot be read as a text.
    Cases,
    /// A line is no heading, says nothing of the next call and is none.
    Line,
    /// A change is of a file that the call does not name, or that is not there.
    File,
    /// No call comes after what is said of the next one.
    NoCall,
    /// A file is no text, or too long.
    Text,
    /// The old text does not stand in the file.
    Absent,
    /// It stands there more than once.
    Twice,
    /// A file is filled up with no byte, or to no such length.
    Fill,
    /// Standard output takes no more.
    Closed,
    Memory,
}

impl Fault {
    /// What is told of it.
    pub fn words(&self) -> &'static str {
        match self {
            Fault::Cases => "the file `cases` cannot be read as a text",
            Fault::Line => "this line is no heading, says nothing of the next call and is none",
            Fault::File =>
                "a change is of a file that the call does not name, or that is not there",
            Fault::NoCall => "no call comes after this line",
            Fault::Text => "the file is no text, or longer than 4194304 bytes",
            Fault::Absent => "the old text does not stand in the file",
            Fault::Twice => "the old text stands in the file more than once: write `throughout`",
            Fault::Fill =>
                "a file is filled up with one byte, to a number of at most 4194305 bytes",
            Fault::Closed => "standard output takes no more",
            Fault::Memory => "no memory",
        }
    }
}

impl From<AllocError> for Fault {
    fn from(_: AllocError) -> Self {
        Fault::Memory
    }
}

impl From<Memory> for Fault {
    fn from(_: Memory) -> Self {
        Fault::Memory
    }
}

impl From<PutFailed> for Fault {
    fn from(_: PutFailed) -> Self {
        Fault::Closed
    }
}

impl From<Stopped<FetchFault>> for Fault {
    fn from(why: Stopped<FetchFault>) -> Self {
        match why {
            Stopped::Fault(FetchFault::Failed) => Fault::File,
            Stopped::Fault(FetchFault::TooLong) => Fault::Text,
            Stopped::Memory => Fault::Memory,
        }
    }
}
