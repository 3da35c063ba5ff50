//! Whether a record of the field, which says what each terminal keyed and whether it tripped, can
//! be a history of a line, and a timing that explains it.

mod answer;
mod block;
mod change;
mod check;
mod clash;
mod fault;
mod fields;
mod giving;
mod heads;
mod laws;
mod read;
mod reader;
mod recorded;
mod seen;
mod settling;
mod text;
mod waves;

pub use answer::{MatchAnswer, match_answer};
pub use fault::SeenFault;
pub use laws::{
    a_file_says_records_of_the_line, a_record_is_settled_once, what_a_choice_gives_is_allowed,
};
pub use reader::read_seen;
pub use seen::{Match, Seen};
pub use settling::settle;
pub use text::match_text;
