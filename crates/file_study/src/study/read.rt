//! Reading a study.

ghost use Rattle.std.specs.Prelude.{◌<◌, map};
ghost use Rattle.toml.specs.View.{table_view};
ghost use Rattle.file_line.specs.Lines.{line_values};
ghost use Rattle.base_memory.specs.Gives.{Gives};
ghost use Rattle.file_study.specs.study.Faults.{fault_values};
ghost use Rattle.file_study.specs.study.Studies.{study_values, faults_of, study_with, study_in, study_of, loose_study_of};

use crate::study::faults::faults_in;
use crate::study::line::{line, terminal_names, units};
use crate::study::stage::SweptFault;
use crate::study::study::Study;
use crate::study::units::Units;
use base_memory::Stopped;
use file_document::keys::{counted, items, number, only, open, text};
use file_document::{DocumentFault, Path};
use model_line::Line;
use std::alloc::Global;
use toml::Table;

const TOP_KEYS: &[&str] = &[
    "study",
    "title",
    "tick_us",
    "frequency_hz",
    "horizon",
    "scheme",
    "zone1_trip",
    "terminals",
    "default",
    "terminal",
    "channel",
    "fault",
];

// The faults, 1 to 1,000.
#[tactic(auto, unfolding(crate::specs::study::Studies::faults_of))]
fn faults(
    alloc: Global,
    loose: bool,
    units: Units,
    line: &Line,
    top: &Table,
) -> Result<Vec<SweptFault>, Stopped<DocumentFault>>
    requires { 0 < units.tick_us }
    ensures { Gives (λ v. map fault_values v.items) result
        (faults_of loose units (line_values line.now) (table_view top.now)) }
{
    let path = Path::root().key(b"fault");
    let items = counted(path, 1, 1000, items(Path::root(), "fault", top)?)?;
    let names = terminal_names(alloc, &line.terminals)?;
    faults_in(alloc, loose, units, line, &names, path, items)
}

// The study of this title and these units.
#[tactic(auto, unfolding(crate::specs::study::Studies::study_with))]
fn study_with(
    alloc: Global,
    loose: bool,
    title: &str,
    units: Units,
    top: &Table,
) -> Result<Study, Stopped<DocumentFault>>
    requires { 0 < units.tick_us }
    ensures { Gives study_values result (study_with loose title.now units (table_view top.now)) }
{
    let line = line(alloc, units, top)?;
    let faults = faults(alloc, loose, units, &line, top)?;
    Ok(Study {
        title: String::from_str(alloc, title)?,
        units,
        line,
        faults,
    })
}

#[tactic(auto, unfolding(crate::specs::study::Studies::study_in))]
fn read_table(alloc: Global, loose: bool, top: &Table) -> Result<Study, Stopped<DocumentFault>>
    ensures { Gives study_values result (study_in loose (table_view top.now)) }
{
    number(Path::root(), "study", 1, 1, top)?;
    only(Path::root(), TOP_KEYS, &[], top)?;
    let title = text(Path::root(), "title", top)?;
    study_with(alloc, loose, title, units(top)?, top)
}

/// The study of these bytes, each stage of which lasts for one time or for those of a sweep; or its first
/// fault.
///
/// `NotToml` comes where the bytes are no TOML document. Every other fault tells the first
/// place, in the order in which a study is read, that is not as it has to be.
#[tactic(auto, unfolding(crate::specs::study::Studies::study_of))]
pub fn read_study(alloc: Global, bytes: &[u8]) -> Result<Study, Stopped<DocumentFault>>
    ensures { Gives study_values result (study_of bytes.now) }
{
    let table = open(alloc, bytes)?;
    read_table(alloc, false, &table)
}

/// The same where a stage may last for an interval, as `8 .. 120 ms`.
#[tactic(auto, unfolding(crate::specs::study::Studies::loose_study_of))]
pub fn read_loose_study(alloc: Global, bytes: &[u8]) -> Result<Study, Stopped<DocumentFault>>
    ensures { Gives study_values result (loose_study_of bytes.now) }
{
    let table = open(alloc, bytes)?;
    read_table(alloc, true, &table)
}
