//! What is wrong in a file that is refused, in words, and what to write.
//!
//! - `rules`: what each key of a line file and of a study may be; `near`: the key that was meant;
//!   `value`: what is written at a key, and what is often written for a time.
//! - `lines`, `studies`, `sweeps`: what is said of a fault of either (`said`), and of its scripts; `maps`: of a
//!   map of records; `records`, `record`: of files of records.
//! - `mistake`: what the bytes show of the whole file, as another encoding or another separator;
//!   `slip`: what they show of one place; `wrong`: the words of these.

pub mod lines;
pub mod maps;
pub mod mistake;
pub mod near;
pub mod record;
pub mod records;
pub mod rules;
pub mod said;
pub mod slip;
pub mod studies;
pub mod sweeps;
pub mod times;
pub mod value;
mod wrong;

pub use wrong::{record_words, toml_words};
