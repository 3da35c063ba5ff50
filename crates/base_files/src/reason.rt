//! Reasons why a file is not read or written.

ghost use Rattle.std.specs.Prelude.{◌≡◌};
ghost use Rattle.std_io.specs.IoError.{error_kind};
ghost use Rattle.base_files.specs.Reasons.{reason_of, words_of};

use std::io::{Error, ErrorKind};

/// Why the system did not read or write a file.
#[derive(Clone, Copy)]
pub enum Reason {
    /// Nothing has the name, or a folder in it is not there.
    NotFound,
    /// Who makes the call may not.
    NoPermission,
    /// The name is that of a folder.
    IsFolder,
    /// No room is left on the disk.
    Full,
    /// Nobody reads what is written.
    Closed,
    /// Another reason, or none that is known.
    Other,
}

impl Reason {
    /// The reason of an error of the system.
    pub fn of(error: &Error) -> Self
        ensures { result ≡ reason_of (error_kind error.now) }
    {
        match error.kind() {
            ErrorKind::NotFound | ErrorKind::NotADirectory => Reason::NotFound,
            ErrorKind::PermissionDenied | ErrorKind::ReadOnlyFilesystem => Reason::NoPermission,
            ErrorKind::IsADirectory => Reason::IsFolder,
            ErrorKind::StorageFull | ErrorKind::QuotaExceeded => Reason::Full,
            ErrorKind::BrokenPipe => Reason::Closed,
            _ => Reason::Other,
        }
    }

    /// The reason in a few words, to stand behind a colon.
    pub fn words(&self) -> &'static str
        ensures { result.now ≡ words_of self.now }
    {
        match self {
            Reason::NotFound => "no such file or folder",
            Reason::NoPermission => "no permission",
            Reason::IsFolder => "it is a folder",
            Reason::Full => "no room is left",
            Reason::Closed => "nobody reads it",
            Reason::Other => "an input or output error",
        }
    }
}
