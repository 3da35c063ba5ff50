//! Why a call stopped, where it may also be for want of memory.

ghost use Rattle.std.specs.Prelude.{◌≡◌};
ghost use Rattle.base_memory.specs.declared.stopped.Stopped.TheVariants as stopped;

use crate::Memory;
use std::alloc::{AllocError, AllocFailed};

/// Why a call stopped: a fault, or want of memory.
#[derive(Clone, Copy, Drop)]
pub enum Stopped<F> {
    Fault(F),
    /// Memory ran out. Nothing else is answered by it.
    Memory,
}

impl<F: Drop> From<Memory> for Stopped<F> {
    ghost from_gives = { λ _ why. why ≡ stopped.Memory };

    fn from(_: Memory) -> Self {
        Stopped::Memory
    }
}

impl<F: Drop> From<AllocError> for Stopped<F> {
    ghost from_gives = { λ _ why. why ≡ stopped.Memory };

    fn from(_: AllocError) -> Self {
        Stopped::Memory
    }
}

impl<F: Drop, T: Drop> From<AllocFailed<T>> for Stopped<F> {
    ghost from_gives = { λ _ why. why ≡ stopped.Memory };

    fn from(_: AllocFailed<T>) -> Self {
        Stopped::Memory
    }
}
