//! Why and where a file is refused, in one line: `FILE:LINE:COLUMN: what is wrong; write ..`.
//!
//! - `places`: the line and the column of a byte; where a key of a TOML document and a record stand.
//! - `words`: the rules that a file breaks, the mistakes that its bytes show, and what to write.
//! - `told`: the line, for the fault of each reader.
#![tactic(auto)]

pub mod places;
pub mod told;
pub mod words;

pub use told::{
    refused_line, refused_map, refused_record, refused_scripts, refused_study, refused_sweep,
    refused_text, refused_times, refused_timings, too_long,
};
