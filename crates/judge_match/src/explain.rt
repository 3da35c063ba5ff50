//! Whether a timing inside the declared intervals explains a record of the field: its play has the
//! same changes of keys and trips, each at most so many ticks away.

mod ahead;
mod answer;
mod budget;
mod changes;
mod explaining;
mod guess;
mod laws;
mod leaf;
mod outlook;
mod paired;
mod parts;
mod play;
mod question;
mod recorded;
mod search;
mod tree;
mod tries;

pub use answer::Explanation;
pub use explaining::explain;
pub use laws::{excluded_trees_explain_nothing, what_is_kept_around_a_tick_is_so};
pub use paired::Paired;
pub use tree::PartNode;
