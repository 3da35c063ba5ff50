//! Records of the field against a line: `matching`, whether a record can be a history of the line;
//! `explain`, whether a timing inside the declared intervals explains it.
#![tactic(auto)]

pub mod explain;
pub mod matching;
