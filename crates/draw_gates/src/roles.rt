//! Which gate of a net a named part of the logic is, by the tree that the gate stands for.

mod gates;
mod laws;
mod lookup;
mod stands;

pub use laws::a_role_stands_for_its_tree;
pub use lookup::{find_gate, role_of_gate};
