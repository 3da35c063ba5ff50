//! What can be wrong with the claims of a script.

use crate::check::no::NoFault;
use run_signal::Tern;

/// Where a claimed key does not cover what follows from the claims, and both values there.
#[derive(Clone, Copy)]
pub struct Uncovered {
    pub terminal: u32,
    pub tick: u32,
    pub claimed: Tern,
    pub derived: Tern,
}

/// What is wrong with the claims of a script.
#[derive(Clone, Copy, Drop)]
pub enum ClaimFault {
    /// A claimed key does not cover what follows from the claims.
    NotCovered(Uncovered),
    /// The `yes` of this terminal is not held by the trips that follow from the claims.
    NotHeld(u32),
    /// The numbers of the `no` of a terminal do not refute its obligation.
    No { terminal: u32, fault: NoFault },
}
