//! Why a gate of a play is on or off at a tick: what is so of it, and of all that it rests on, down to
//! what the script shows.
//!
//! - `fact`: the level of a gate at a tick, from when it has had it and until when it keeps it.
//! - `causes`: what that rests on, one gate or two at a tick: of what is on or off together those that
//!   decide, and of what arrived what was sent.
//! - `reason`: a fact, then those that it rests on, in preorder; `laws`: that it rests on the levels alone.
#![tactic(auto)]

mod causes;
mod delay;
mod fact;
pub mod laws;
mod levels;
mod play;
mod reason;
mod stretch;

pub use fact::{Fact, Spot};
pub use levels::is_on;
pub use play::Play;
pub use reason::why;
