//! What happens as intervals move outward: `margins`, how far each end can go until an obligation is
//! lost; `map`, what the rules say as one or two settings move.
#![tactic(auto)]

pub mod map;
pub mod margins;
