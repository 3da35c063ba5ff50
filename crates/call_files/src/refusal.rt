//! Why a file or the parameter is refused, and what the line to standard error tells of it.
ghost use Rattle.std.specs.Prelude.{◌≡◌};
ghost use Rattle.call_files.specs.Refusals.{detail_of, name_of, subject_of, line_detail};
ghost use Rattle.call_files.specs.Refusals.{record_detail};

use crate::stop::File;
use file_document::{DocumentFault, Path};
use file_tables::script::ScriptFault;
use file_tables::timing::TimingFault;
use judge_match::matching::SeenFault;
use model_line::Name;

/// Why a file, or the parameter that the words name, is refused.
#[derive(Clone, Copy)]
pub enum Refusal {
    /// It is longer than its limit.
    TooLong(File),
    Line(DocumentFault),
    Scripts(ScriptFault),
    Timings(TimingFault),
    Record(SeenFault),
    /// No parameter of the line has the name.
    UnknownParameter,
}

/// What is refused.
#[derive(Clone, Copy)]
pub enum Subject {
    File(File),
    Parameter,
}

/// What is told behind the name of a fault.
#[derive(Clone, Copy)]
pub enum Detail {
    Nothing,
    /// A place in a line file.
    Path(Path),
    /// The number of a record of a scripts, timings or record file.
    Record(u32),
    /// The sender and the receiver of a channel that is not there.
    Channel(Name, Name),
}

impl Refusal {
    pub fn subject(&self) -> Subject
        ensures { result ≡ subject_of self.now }
    {
        match self {
            Refusal::TooLong(file) => Subject::File(*file),
            Refusal::Line(_) => Subject::File(File::Line),
            Refusal::Scripts(_) => Subject::File(File::Scripts),
            Refusal::Timings(_) => Subject::File(File::Timings),
            Refusal::Record(_) => Subject::File(File::Record),
            Refusal::UnknownParameter => Subject::Parameter,
        }
    }

    /// The fault's printed name.
    pub fn name(&self) -> &'static str
        ensures { result.now ≡ name_of self.now }
    {
        match self {
            Refusal::TooLong(_) => "TooLong",
            Refusal::Line(fault) => fault.name(),
            Refusal::Scripts(fault) => fault.name(),
            Refusal::Timings(fault) => fault.name(),
            Refusal::Record(fault) => fault.name(),
            Refusal::UnknownParameter => "Unknown",
        }
    }

    pub fn detail(&self) -> Detail
        ensures { result ≡ detail_of self.now }
    {
        match self {
            Refusal::TooLong(_) => Detail::Nothing,
            Refusal::Line(fault) => detail_of_line(fault),
            Refusal::Scripts(fault) => detail_of_record(fault.record()),
            Refusal::Timings(fault) => detail_of_record(fault.record()),
            Refusal::Record(fault) => detail_of_record(fault.record()),
            Refusal::UnknownParameter => Detail::Nothing,
        }
    }
}

fn detail_of_line(fault: &DocumentFault) -> Detail
    ensures { result ≡ line_detail fault.now }
{
    match fault {
        DocumentFault::NotToml => Detail::Nothing,
        DocumentFault::Unknown(path)
        | DocumentFault::Missing(path)
        | DocumentFault::WrongKind(path)
        | DocumentFault::Range(path)
        | DocumentFault::BadName(path)
        | DocumentFault::Twice(path)
        | DocumentFault::BadTime(path, _)
        | DocumentFault::Swept(path)
        | DocumentFault::NoInstant(path)
        | DocumentFault::TooMany(path)
        | DocumentFault::BadDate(path)
        | DocumentFault::OneFile(path) => Detail::Path(*path),
        DocumentFault::Channels(from, to) => Detail::Channel(*from, *to),
    }
}

fn detail_of_record(number: Option<u32>) -> Detail
    ensures { result ≡ record_detail number }
{
    match number {
        None => Detail::Nothing,
        Some(number) => Detail::Record(number),
    }
}
