//! What the interval rules say of a line, in lines of text: the report, and the margin of a
//! parameter.
//!
//! - `report`: for each script and terminal, when the trip may first come and when it must have
//!   come, over all choices of delays in the declared intervals, beside the deadline and the rule.
//! - `answer`: how far the greatest number of a parameter can be raised, all else as declared, so
//!   that the rule of every obligation is held.
#![tactic(auto)]

mod answer;
mod known;
mod laws;
mod loss;
mod margins;
mod report;
mod rows;
mod searching;
mod text;
mod upper_end;

pub use answer::{MarginAnswer, margin_answer};
pub use laws::{
    a_parameter_has_one_margin, what_is_held_to_a_number_is_held_below,
    what_is_held_to_a_number_is_met,
};
pub use margins::{deadline, margin, margin_us};
pub use report::{REPORT_HEADER, report_rows, report_text};
pub use rows::rule_word;
pub use text::margin_text;
pub use upper_end::{Lost, UpperEnd};
