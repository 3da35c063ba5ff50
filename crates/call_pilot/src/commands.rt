//! The commands, over what was read: each gives a status and a text, and asks an engine for its
//! plays, verdicts and checks.
//!
//! `bench`, `scripts`, `run_bench`: the bench, whose line and scripts need no file.

mod bench;
pub mod certify;
pub mod check;
mod found;
mod laws;
pub mod line;
pub mod margin;
pub mod match_records;
pub mod migrate;
pub mod net;
pub mod play;
pub mod recheck;
pub mod report;
pub mod run_bench;
mod script;
mod scripts;
pub mod split;
mod text;

pub use bench::bench_line;
pub use laws::{each_certificate_has_one_text, each_play_has_one_text};
pub use script::bench_script;
pub use scripts::bench_scripts;
pub use text::bench_text;
