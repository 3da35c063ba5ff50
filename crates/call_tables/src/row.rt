//! What is known of an obligation.

use judge_settle::settle::Settled;

/// What is known of the obligation of a script at a terminal, both by their numbers.
#[derive(Drop)]
pub struct Row {
    pub script: u32,
    pub terminal: u32,
    pub settled: Settled,
}
