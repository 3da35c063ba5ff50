//! Maps: which digital channel of which recorder is which signal of a line, and when the line's
//! ticks begin in the recorders' clocks.
//!
//! `specs/map/Maps.antt` says what a map says, or its first fault.

mod file_names;
mod head;
mod instant;
mod losses;
mod map;
mod read;
mod recorder;
mod recorders;
mod signals;
mod source;
mod sources;

pub use file_names::{data_name, is_one_file};
pub use map::Map;
pub use read::read_map;
pub use recorder::Recorder;
pub use source::{ChannelName, Signal, Signals, Source};
