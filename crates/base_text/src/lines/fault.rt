//! What can be wrong with a text of lines.

ghost use Rattle.std.specs.Prelude.{◌≡◌};

use base_memory::Stopped;

/// Why a text is refused.
#[derive(Clone, Copy, Drop)]
pub struct TextFault {
    /// The first line, counted from 1, that cannot stand where it does. Lines end after each line
    /// feed; one that is missing, or has no line feed, is the line after the last.
    pub line: usize,
}

impl From<TextFault> for Stopped<TextFault> {
    ghost use Rattle.base_memory.specs.declared.stopped.Stopped.TheVariants as stopped;

    ghost from_gives = { λ fault why. why ≡ stopped.Fault fault };

    fn from(fault: TextFault) -> Self {
        Stopped::Fault(fault)
    }
}
