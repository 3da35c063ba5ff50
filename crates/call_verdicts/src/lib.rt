//! The table of verdicts: whether each fault's scripts meet their obligations, and how soon each
//! trips, in milliseconds; and the same by fault: how many of its scripts, and where they do not.
#![tactic(auto)]

mod cases;
mod fault_fields;
mod fault_table;
mod faults;
mod fields;
mod finding;
mod stretches;
mod table;
mod told;
mod verdict;
mod verdicts;
mod worst;

pub use cases::Cases;
pub use fault_table::end_of;
pub use faults::faults_table;
pub use fields::{answer_word, fails_for_word, number_words, trip_text};
pub use finding::{Finding, Standing, find_all};
pub use told::{fault_name, number_in, swept_text};
pub use verdict::{Verdict, verdicts_of};
pub use verdicts::{status_of, verdicts_table};
pub use worst::worst_place;
