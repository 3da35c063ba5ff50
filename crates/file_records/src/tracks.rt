//! What the records of relays tell of a line, under a map: the level of each signal at each tick,
//! and the sources of the map as a table for people.
//!
//! `place` puts each source of a map beside the files that it is read from, and `read_tracks` reads
//! them. `specs/tracks/Rows.antt` says what the table is: which channel of which recorder tells which
//! signal, and when it first changes.

mod changes;
mod channel;
mod fields;
mod level;
mod placed;
mod placing;
mod samples;
mod table;
mod told;
mod track;

pub use channel::{ChannelLevels, channel_levels};
pub use level::is_on;
pub use placed::{Placed, RecordBytes};
pub use placing::place;
pub use samples::Sampled;
pub use table::{Sources, sources_text};
pub use told::first_untold;
pub use track::{Track, TrackFault, read_tracks};
