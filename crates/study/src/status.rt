//! Exit statuses that are not those of an answer.

/// Something that was asked about fails.
pub const FAILS: u8 = 1;

/// Words that ask for nothing, or that would write over a file that they should not.
pub const USAGE: u8 = 4;

/// An output that takes no more.
pub const SINK: u8 = 7;

/// Want of memory.
pub const MEMORY: u8 = 8;

/// The greatest status of a call that is done.
pub const DONE: u8 = 3;
