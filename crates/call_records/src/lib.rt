//! The call over the records of relays: from a line file and a map to a script or a record for
//! `pilot`, or to a table of what the map names.
//!
//! `specs/Course.antt` says which files are read after which, `specs/Answers.antt` what is answered,
//! and `specs/Clauses.antt` what is promised of the whole call.
#![tactic(auto)]

mod answer;
mod asked;
mod beside;
mod fetch;
mod halt;
mod parts;
mod read;
mod record_refusal;
mod refusal;
mod section_refusal;
mod told;
mod top;

pub use halt::{File, Halt, status_of};
pub use record_refusal::{config_spot, config_words};
pub use section_refusal::section_line;
pub use told::Spot;
pub use top::records;
