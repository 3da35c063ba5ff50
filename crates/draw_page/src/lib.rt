//! The page of a study as one HTML 5 file, without scripts and with nothing from outside: to be
//! read in a browser, printed and signed.
//!
//! - `elements`, `words`, `times`, `parts`: what a page says of a study, as values, and what it is
//!   made of: words and times, links, tables, marks of verdicts, and drawings, whose hatchings
//!   stand in the page once.
//! - `matrices`, `choice`, `opens`, `fault`: the matrix of faults and terminals, the choices that
//!   fail, the obligations that are open, and a section for each fault.
//! - `whole`: the page.
#![tactic(auto)]

mod anchor;
mod badges;
mod bar;
mod bare;
mod block;
mod choice;
mod drawings;
mod elements;
mod fault;
mod files;
mod hatching;
mod heading;
mod matrices;
mod nearest;
mod opens;
mod page;
mod parts;
mod running;
mod scripts;
mod sheet;
mod signing;
mod strip;
mod style;
mod times;
mod whole;
mod words;

pub use anchor::faults_have_ids_of_their_own;
pub use page::{
    Case, Counts, Digest, FailingChoice, Fault, FileText, LeastMargin, Means, Page, Slack,
    Standing, Time, ToldStep, ToldTime, Undecided, Verdict,
};
pub use whole::{page_document, page_text};
