//! TOML documents: their keys, where in one something stands, and why one is refused.
//!
//! Line files, studies and maps of recorders are read by these.
#![tactic(auto)]

mod fault;
pub mod keys;
mod laws;
mod path;
mod time_fault;
pub mod words;

pub use fault::DocumentFault;
pub use laws::the_first_unknown_key_is_the_least;
pub use path::Path;
pub use time_fault::TimeFault;
