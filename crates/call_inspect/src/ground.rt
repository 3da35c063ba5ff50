//! What files are held against.

ghost use Rattle.std.specs.Prelude.{◌≡◌, IfOk, IsErr, Ok, Some};
ghost use Rattle.std.specs.Option.{option_copied};
ghost use Rattle.file_line.specs.LineFiles.{line_of};
ghost use Rattle.file_study.specs.study.Studies.{study_of, study_values};
ghost use Rattle.call_inspect.specs.Given.{content as content_of, has_scripts as is_scripts_file};
ghost use Rattle.call_inspect.specs.Given.{kind_in as kind_of_file, only};
ghost use Rattle.call_inspect.specs.Grounds.{AreKnown, IsGround, IsGroundBy, IsGroundOf, IsNoStudy};
ghost use Rattle.call_inspect.specs.Grounds.{LineSays, StudySays, few, file_at, scripts_in};

use crate::given::GivenFile;
use crate::kind::Kind;
use crate::only::{kind_in, only_line, only_scripts};
use base_memory::{Memory, Stopped};
use file_line::read_line;
use file_study::study::{Study, read_study};
use file_study::sweeps::scripts_of_study;
use file_tables::script::read_scripts;
use model_line::{Line, Script};
use std::alloc::Global;

/// The line of the only study or line file among the files.
#[derive(Drop)]
pub enum Ground<'a, 'b> {
    /// There is none, or there are several.
    Nothing,
    /// The one is refused.
    Refused,
    Line(LineGround<'a, 'b>),
}

/// A line, which stands in the file of this name, and its scripts, where they are known.
#[derive(Drop)]
pub struct LineGround<'a, 'b> {
    pub name: &'b str,
    pub bytes: &'a [u8],
    pub line: Line,
    pub scripts: Option<Vec<Script>>,
}

/// What the files are held against.
pub fn ground_of<'a, 'b>(
    alloc: Global,
    files: &'a [GivenFile<'b>],
) -> Result<Ground<'a, 'b>, Memory>
    ensures { IfOk result (IsGround files.now) }
{
    match only_line(files) {
        None => Ok(Ground::Nothing),
        Some(place) => ground_by(alloc, files, &files[place]),
    }
}

fn ground_by<'a, 'b>(
    alloc: Global,
    files: &'a [GivenFile<'b>],
    file: &'a GivenFile<'b>,
) -> Result<Ground<'a, 'b>, Memory>
    ensures { IfOk result (IsGroundBy files.now (content_of file.now) (kind_of_file file.now)) }
{
    match kind_in(file) {
        Some(Kind::Study) => study_ground(alloc, file),
        _ => line_ground(alloc, files, file),
    }
}

// A study is read, and its faults come to scripts.
fn study_ground<'a, 'b>(alloc: Global, file: &'a GivenFile<'b>) -> Result<Ground<'a, 'b>, Memory>
    ensures { IfOk result
        (IsGroundOf (IsNoStudy (content_of file.now)) (StudySays (content_of file.now))) }
{
    match read_study(alloc, file.content()) {
        Ok(study) => swept_ground(alloc, file, study),
        Err(Stopped::Memory) => Err(Memory),
        Err(Stopped::Fault(_)) => Ok(Ground::Refused),
    }
}

fn swept_ground<'a, 'b>(
    alloc: Global,
    file: &'a GivenFile<'b>,
    study: Study,
) -> Result<Ground<'a, 'b>, Memory>
    requires { study_of (content_of file.now) ≡ Ok (study_values study) }
    ensures { IfOk result
        (IsGroundOf (IsNoStudy (content_of file.now)) (StudySays (content_of file.now))) }
{
    match scripts_of_study(alloc, &study) {
        Ok(all) => Ok(Ground::Line(LineGround {
            name: file.name,
            bytes: file.content(),
            line: study.line,
            scripts: Some(all.scripts),
        })),
        Err(Stopped::Memory) => Err(Memory),
        Err(Stopped::Fault(_)) => Ok(Ground::Refused),
    }
}

// A line file is read, and then the only scripts.
fn line_ground<'a, 'b>(
    alloc: Global,
    files: &[GivenFile<'_>],
    file: &'a GivenFile<'b>,
) -> Result<Ground<'a, 'b>, Memory>
    ensures { IfOk result (IsGroundOf (IsErr (line_of (content_of file.now)))
        (LineSays (content_of file.now) files.now)) }
{
    match read_line(alloc, file.content()) {
        Ok(line) => {
            let scripts = scripts_among(alloc, files, &line)?;
            Ok(Ground::Line(LineGround {
                name: file.name,
                bytes: file.content(),
                line,
                scripts,
            }))
        }
        Err(Stopped::Memory) => Err(Memory),
        Err(Stopped::Fault(_)) => Ok(Ground::Refused),
    }
}

// The scripts of the only file of them, where there is one and it is not refused.
fn scripts_among(
    alloc: Global,
    files: &[GivenFile<'_>],
    line: &Line,
) -> Result<Option<Vec<Script>>, Memory>
    ensures { IfOk result (λ found. AreKnown line.now
        (file_at files.now (only is_scripts_file files.now)) (scripts_in found)) }
{
    match only_scripts(files) {
        None => Ok(None),
        Some(place) => scripts_of(alloc, &files[place], line),
    }
}

fn scripts_of(
    alloc: Global,
    file: &GivenFile<'_>,
    line: &Line,
) -> Result<Option<Vec<Script>>, Memory>
    ensures { IfOk result (λ found. AreKnown line.now (Some file.now) (scripts_in found)) }
{
    match read_scripts(alloc, line, file.content()) {
        Ok(scripts) => Ok(Some(scripts)),
        Err(Stopped::Memory) => Err(Memory),
        Err(Stopped::Fault(_)) => Ok(None),
    }
}

/// The scripts of the line, where they are known and there are at most 64.
pub fn few_scripts<'a>(own: &'a LineGround<'_, '_>) -> Option<&'a [Script]>
    ensures { option_copied result ≡ few (scripts_in own.now.scripts) }
{
    match &own.scripts {
        Some(scripts) if scripts.len() <= 64 => Some(scripts.as_slice()),
        _ => None,
    }
}
