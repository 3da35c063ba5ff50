//! Want of memory, and why a call stopped where that may be the reason.
#![tactic(auto)]

mod stopped;

ghost use Rattle.std.specs.Prelude.{◌≡◌};

use std::alloc::{AllocError, AllocFailed};
pub use stopped::Stopped;
use thiserror::Error;

/// Memory ran out. Nothing else is answered by it.
#[derive(Clone, Copy, Debug, PartialEq, Eq, Error)]
#[error("out of memory")]
pub struct Memory;

impl From<AllocError> for Memory {
    ghost from_gives = { λ _ m. m ≡ record {} };

    fn from(_failed: AllocError) -> Self {
        Memory
    }
}

impl<T: Drop> From<AllocFailed<T>> for Memory {
    ghost from_gives = { λ _ m. m ≡ record {} };

    fn from(_failed: AllocFailed<T>) -> Self {
        Memory
    }
}
