//! Records of relays as files, in and out.
//!
//! - In: what they tell, as files for `pilot`: a script of what the terminals saw, and a record of
//!   what they keyed and when they tripped. `specs/recorded/Spans.antt` says what the script is,
//!   `specs/recorded/Changes.antt` what the record is.
//! - Out: a play as such a record (COMTRADE, 1999, ASCII): a configuration, its data with a sample
//!   for each tick, and the map that reads both back. `exported_laws` says that it is read back as
//!   the same play.

mod changes;
mod config;
mod data;
mod exported_laws;
mod laws;
mod map;
mod script;
mod spans;

pub use changes::record_text;
pub use config::config_text;
pub use data::data_text;
pub use exported_laws::{
    configurations_are_read_back, data_are_read_back, plays_are_read_back, plays_are_told,
    records_are_plays, scripts_show_plays,
};
pub use laws::a_script_shows_what_is_told;
pub use map::map_text;
pub use script::{NoScript, scripts_text};
