//! Boxes of timings under assumptions on echoes: 64 of them side by side, each with its interval
//! history; whether an obligation is shown over one; and the nodes of trees of parts and spans.
#![tactic(auto)]

mod analysis;
mod assumed;
mod held;
pub mod laws;
mod levels;
mod node;
mod rows;
mod shown;
mod spans;
mod view;
mod wanted;

pub use analysis::{Analysis, analyse};
pub use assumed::Assumed;
pub use node::CaseNode;
pub use shown::{are_shown, is_shown};
pub use view::{View, assumed_view, can_part, declared_view, has_span, lower_view, upper_view};
pub use wanted::wanted_gate;
