//! Why a document is refused.

ghost use Rattle.std.specs.Prelude.{◌≡◌};

use crate::path::Path;
use crate::time_fault::TimeFault;
use base_memory::Stopped;
use model_line::Name;

/// The first fault of a line file, of a study or of a map of recorders, with its place.
#[derive(Clone, Copy, Drop)]
pub enum DocumentFault {
    /// The bytes are no TOML document.
    NotToml,
    /// A key that does not belong there.
    Unknown(Path),
    /// A required key is absent.
    Missing(Path),
    /// A value of another type.
    WrongKind(Path),
    /// A value outside its limits; a time above 4,000 ticks.
    Range(Path),
    /// A name that is not plain, or the name of what there is not: of a terminal, an element, a
    /// channel, a kind or a file.
    BadName(Path),
    /// A name, or a pair of terminals, that stands before.
    Twice(Path),
    /// No channel leads from the first terminal to the second.
    Channels(Name, Name),
    /// The text of a time is refused.
    BadTime(Path, TimeFault),
    /// A sweep, where only a fault's own times may be swept.
    Swept(Path),
    /// An interval or a tolerance, where a time has to be one.
    NoInstant(Path),
    /// A sweep of more than 1,000 values, or a fault of more than 4,096 scripts.
    TooMany(Path),
    /// Not a date with a time, as `2026-03-05T12:00:00.1`.
    BadDate(Path),
    /// The name of a record in one file, whose configuration and data are to be apart.
    OneFile(Path),
}

impl DocumentFault {
    ghost use Rattle.file_document.specs.Faults.{fault_name, place_of};

    /// The place in the document, as it is written there; none where the fault has none.
    pub fn place(&self) -> Option<Path>
        ensures { result ≡ place_of self.now }
    {
        match self {
            DocumentFault::Unknown(path)
            | DocumentFault::Missing(path)
            | DocumentFault::WrongKind(path)
            | DocumentFault::Range(path)
            | DocumentFault::BadName(path)
            | DocumentFault::Twice(path)
            | DocumentFault::BadTime(path, _)
            | DocumentFault::Swept(path)
            | DocumentFault::NoInstant(path)
            | DocumentFault::TooMany(path)
            | DocumentFault::BadDate(path)
            | DocumentFault::OneFile(path) => Some(*path),
            DocumentFault::NotToml | DocumentFault::Channels(_, _) => None,
        }
    }

    /// The fault's printed name.
    pub fn name(&self) -> &'static str
        ensures { result.now ≡ fault_name self.now }
    {
        match self {
            DocumentFault::NotToml => "NotToml",
            DocumentFault::Unknown(_) => "Unknown",
            DocumentFault::Missing(_) => "Missing",
            DocumentFault::WrongKind(_) => "Kind",
            DocumentFault::Range(_) => "Range",
            DocumentFault::BadName(_) => "BadName",
            DocumentFault::Twice(_) => "Twice",
            DocumentFault::Channels(_, _) => "Channels",
            DocumentFault::BadTime(_, _) => "BadTime",
            DocumentFault::Swept(_) => "Swept",
            DocumentFault::NoInstant(_) => "NoInstant",
            DocumentFault::TooMany(_) => "TooMany",
            DocumentFault::BadDate(_) => "BadDate",
            DocumentFault::OneFile(_) => "OneFile",
        }
    }
}

impl From<DocumentFault> for Stopped<DocumentFault> {
    ghost use Rattle.base_memory.specs.declared.stopped.Stopped.TheVariants as stopped;

    ghost from_gives = { λ fault why. why ≡ stopped.Fault fault };

    fn from(fault: DocumentFault) -> Self {
        Stopped::Fault(fault)
    }
}
