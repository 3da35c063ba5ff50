//! The net of a line: what each terminal sends and trips on, by the line's scheme, as one ordered
//! net of gates; and the text of a net.
//!
//! `builder` takes gates one after another, each over earlier ones, and answers their numbers:
//! equal gates are one. `formula_gates` makes the gates of any formula, and `program_gates` those of
//! a program, each part once, so no scheme is named here: each is a file of `model_plain`.
//! `terminal_gates` are those of a terminal, and `whole_line` is the net of the line.
#![tactic(auto)]

mod builder;
mod formula_gates;
mod program_gates;
mod terminal_gates;
mod text;
mod whole_line;

pub use text::net_text;
pub use whole_line::compile;
