//! The table of times: of each fault whose stages last for intervals, and of each terminal, from which time to which
//! all is held, and where something fails.
//!
//! `specs/Question.antt` says what is so of a stretch over the study's line, `specs/Posed.antt` how it is asked over
//! the line played on, `specs/Rows.antt` and `specs/Times.antt` what is written.
#![tactic(auto)]

mod fault;
mod found;
mod played;
mod rows;
mod terminals;
mod times;

pub use times::times_table;
