//! One line of a fault.
//!
//! - `one_line`: the line of a place and of words; `document`: that of a key of a TOML document.
//! - `line`, `study`: of a line file, of a study and of a map; `sweep`: of a study whose
//!   faults come to no scripts; `records`, `record`: of scripts and timings, and of keys and trips;
//!   `text`: of a text whose line is known, and of a file that is too long.

mod document;
mod line;
mod one_line;
mod record;
mod records;
mod study;
mod sweep;
mod text;
mod times;

pub use line::refused_line;
pub use one_line::{push_place, push_within, told};
pub use record::refused_record;
pub use records::{refused_scripts, refused_timings};
pub use study::{place_of_item, refused_map, refused_study};
pub use sweep::refused_sweep;
pub use text::{refused_text, too_long};
pub use times::refused_times;
