//! Waves: `waves`, the values of a gate as runs of equal ones; `derived`, those of all gates of a net
//! where its keys are claimed or were recorded.
#![tactic(auto)]

pub mod derived;
pub mod waves;
