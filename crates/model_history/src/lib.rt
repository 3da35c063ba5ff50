//! Histories of truth values, tick by tick, and what the schemes are made of: the timed element,
//! the seal and the delay, over one history and by interval rules over two rails, must and may.
//!
//! The definitions stand in `specs/`. Each law about them is the contract of a function with an
//! empty body.
//! The module `plain` has slow functions that answer what the definitions say.
#![tactic(auto)]

pub mod delay_laws;
pub mod element_laws;
pub mod laws;
pub mod plain;
pub mod rails_laws;
pub mod recorded_laws;
