//! What a search looks at before it chooses: 64 views of a line's timings side by side, each a box
//! with what is assumed of echoes, or one timing whose delays move. One run over the ticks tells of
//! each view whether an obligation is met, and how far it is from that.
//!
//! Nothing here is relied on: whoever answers shows the answer by other means.
#![tactic(auto)]

mod bits;
mod candidates;
mod channel;
mod counter;
mod cuts;
mod levels;
mod lists;
mod marks;
mod moving;
mod outlook;
mod pair;
mod rails;
mod reads;
mod run;
mod scene;
mod since;
mod span;
mod spans;
mod timer;
mod turns;
mod views;

pub use candidates::{CANDIDATES, failing};
pub use cuts::{Chosen, Cut, Side, choose, cuts_of, side_of};
pub use outlook::Score;
pub use scene::Scene;
pub use span::{Assumed, Span};
pub use spans::{Spans, spans_of};
