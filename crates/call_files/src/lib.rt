//! The files of a call: their limits, what fetching one does, what the line file and the scripts file
//! say; and why a call stops, with its exit status and its line to standard error.
#![tactic(auto)]

mod files;
mod messages;
mod refusal;
mod stop;
mod study;

pub use files::fetch_file;
pub use messages::put_message;
pub use refusal::Refusal;
pub use stop::{File, Status, Stop, ended};
pub use study::read_study;
