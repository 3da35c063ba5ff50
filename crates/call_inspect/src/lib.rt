//! `study lint` over files of any kind: each is told apart by its name and its head, held against the one
//! line or study among them, and told by one line where it is refused.
//!
//! - `head`, `kind`: of what kind a file is; `given`: a file by its name and its bytes.
//! - `ground`: what files are held against; `only`: the only one of a kind.
//! - `found`: what is found in a file, by its kind; `tables`, `texts`, `records`: in files that are held
//!   against a line; `alone`: in one that is not.
//! - `inspected`: over all files; `fetch`, `halt`, `top`: the call.
#![tactic(auto)]

mod alone;
mod fetch;
mod found;
mod given;
mod ground;
mod halt;
mod head;
mod inspected;
mod kind;
mod only;
mod records;
mod tables;
mod texts;
mod top;

pub use halt::{Halt, status_of};
pub use top::inspect;
