//! Whole ticks are no approximation: what the interval rules hold over whole ticks is met by every
//! choice whose times are fractions of a tick.
//!
//! The definitions stand in `specs/`: what it is to cut each tick into n fine ticks (`Cut`), and the
//! histories and the obligations of choices that are counted in fine ticks (`Fine`). Times are whole
//! ticks everywhere else.
//!
//! - `fine_laws`: what is cut keeps its values, the interval history covers every fine history, and so
//!   a rule speaks for every fine choice.
//! - `span_laws`: trees of parts that share their ends, and of cases of an echo over spans of ticks,
//!   speak for every fine choice too.
//! - `loose_laws`: so it is where the borders of a script are not known, for whatever is shown between
//!   what is certain and what may be.
#![tactic(auto)]

pub mod fine_laws;
pub mod loose_laws;
pub mod span_laws;
