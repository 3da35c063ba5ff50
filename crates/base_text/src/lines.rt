//! Texts made of lines, each with its line feed: the lines of a text one after another, the starts
//! of lines, and what it means that lines stand where they are expected; ticks and microseconds
//! as exact decimals of milliseconds, as every table and page tells them; and numbers in a row.
//!
//! `specs/lines/Lines.antt` has a text as a list of places, each with what can stand there and what it
//! opens; `specs/lines/Grammar.antt` has a text of several items, between a first and a last line. The
//! laws that every such text has stand beside them (`LineLaws`, `Reading`, `ReadingLaws`,
//! `WholeLaws`), since they range over relations, of which no clause can speak.

mod cursor;
mod fault;
mod find;
mod line;
mod milliseconds;
mod numbers;
mod part;
mod start;
mod whole;

pub use cursor::LineCursor;
pub use fault::TextFault;
pub use find::find_byte;
pub use line::{LineReader, read_lines};
pub use milliseconds::{push_ms, push_ticks};
pub use numbers::{number_in, push_number};
pub use part::{PartReader, read_each};
pub use start::{after, after_name, is};
pub use whole::read_text;
