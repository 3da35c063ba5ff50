//! What a call answers: a status and a text, over a line and its scripts; and how the text is written
//! to a sink. The commands stand on it, those of `pilot` and those of `study` alike.
#![tactic(auto)]

mod done;
mod put;
mod said;
mod study;

pub use base_text::pieces::text_of;
pub use done::Done;
pub use put::{put_pieces, put_text};
pub use said::{Said, put_said};
pub use study::Study;
