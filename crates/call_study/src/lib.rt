//! The top call of the program `study`, over a study file, or a line file and a scripts file, and what
//! further files the work takes: timing diagrams, value change dumps, tables, explanations, maps and
//! the page.
#![tactic(auto)]

mod choose;
mod explain;
mod few;
mod linted;
mod map;
mod page;
mod pictures;
mod read;
mod settled;
mod times;
mod top;
mod why;

pub use top::study;
