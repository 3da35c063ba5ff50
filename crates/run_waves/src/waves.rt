//! Ternary waves: what is known of a truth value at each tick of a horizon, kept as runs of equal
//! values, so that long quiet waves cost little.
//!
//! Contracts see a wave as the list of its values, tick by tick, from tick 0 on.

mod cursor;
mod elements;
mod first;
mod gates;
mod laws;
mod line_laws;
mod received;
mod runs;
mod text;

pub use cursor::Cursor;
pub use elements::{seal, timer};
pub use first::{first_may, first_must};
pub use gates::{and, not, or};
pub use laws::{texts_tell_waves, the_first_tick_is_the_least, waves_grow};
pub use line_laws::the_text_of_a_wave_is_one_line;
pub use received::{raw, raw_at, raw_until};
pub use runs::{Runs, Stretch};
pub use text::{print_runs, read_runs, tern_word};
