//! The interval rules over the declared intervals of a line, and the verdicts that they give.
//!
//! - `interval_history`: the interval history of a script, which stands for all choices of delays
//!   at once, and by it the rule of each obligation.
//! - `certification`: the verdict of each obligation of a script, with the keys that show it.

mod block;
mod certification;
mod failing;
mod interval_history;
mod keys;
mod pair_waves;
mod rule;
mod spans;
mod standing;
mod track_waves;
mod verdict;

pub use certification::certify;
pub use interval_history::analyse;
pub use pair_waves::PairWaves;
pub use rule::{Rule, judge};
pub use spans::declared_spans;
pub use verdict::{ScriptVerdict, Verdict};
