//! Records of relays in COMTRADE: the configuration, and the digital channels of the data.
//!
//! What a configuration and its data say is a function of their bytes (`specs/`), up to the first
//! fault in the order of reading.
#![tactic(auto)]

mod ascii_sample;
mod binary_sample;
mod blank;
mod calendar;
mod channel;
mod channel_lines;
mod config;
mod config_lines;
mod config_reader;
mod data_reader;
mod ending;
mod fault;
mod heads;
mod laws;
mod levels;
mod moment_fault;
mod number;
mod places;
mod rate_lines;
mod raw_sample;
mod record;
mod sections;
mod shape;
mod text;
mod ticks;
mod time;

pub use calendar::{checked_day, moment};
pub use channel::{Named, channel_named};
pub use config::{Config, DateOrder, Form, Rate, Revision, Sampling, StampUnit};
pub use config_reader::read_config;
pub use data_reader::{Sample, read_samples};
pub use fault::{ConfigFault, DataFault};
pub use laws::one_sample_holds;
pub use levels::levels_at;
pub use places::column_in;
pub use record::{Files, RecordFault};
pub use sections::{Parts, SectionFault, parts_of};
pub use ticks::{TickFault, Ticks, samples_at, times_of};
