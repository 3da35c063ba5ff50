//! Timing diagrams as drawings, 1,000 pixels wide: rows by terminal on one axis in ticks and
//! milliseconds, with marks, margins, rules and a legend. What is off, open and on is told apart
//! without colour, and each row says its stretches in words to a pointer and a screen reader.

mod axis;
mod bar;
mod heading;
mod laws;
mod left;
mod legend;
mod mark;
mod row;
mod rows;
mod scale;
mod subject;
mod trip;
mod whole;
mod words;

pub use laws::{bars_show_the_history, places_follow_the_ticks, rows_lie_apart};
pub use subject::Subject;
pub use whole::draw;
