//! What the program `study` is asked for: work over a line and its scripts, and the files that they
//! stand in; and what is made of records of the field.
#![tactic(auto)]

mod ask;
mod choose;
mod explain;
mod map;
mod records;
mod shots;
mod why;

pub use ask::{Ask, Form, Source, Table, Work};
pub use choose::ChooseAsk;
pub use explain::ExplainForm;
pub use map::{MapAsk, MapForm};
pub use records::{RecordsAsk, RecordsWork};
pub use shots::ShotsForm;
pub use why::{WhyAsk, WhyForm};
