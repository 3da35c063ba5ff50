//! The gates of a net in pictures.
//!
//! - `roles`: what each gate is to a protection engineer.
//! - `dump`: every gate of a run, for a waveform viewer.
#![tactic(auto)]

pub mod dump;
pub mod roles;
