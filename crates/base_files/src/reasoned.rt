//! Stores that know why a pull failed.

ghost use Rattle.std.specs.Prelude.{◌≡◌};
ghost use Rattle.base_files.specs.declared.reason.Reason.{Reason as ReasonOf};

use crate::reason::Reason;
use base_text::store::{MemoryStore, Store};

/// A store that knows why its latest failed pull failed.
pub trait Reasoned: Store {
    /// Why the latest failed pull failed; `Other` before any.
    ghost why: { Self → ReasonOf };

    /// Why the latest failed pull failed; `Other` before any.
    fn reason(&self) -> Reason
        ensures { result ≡ why self.now };
}

impl Reasoned for MemoryStore {
    ghost use Rattle.base_files.specs.declared.reason.Reason.TheVariants as reason;

    ghost why = { λ _. reason.Other };

    fn reason(&self) -> Reason {
        Reason::Other
    }
}
