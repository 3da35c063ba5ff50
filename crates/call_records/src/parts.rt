//! The two parts of each record: its configuration and its data.

ghost use Rattle.std.specs.Prelude.{[], ◌≡◌, IfOk, length, map};
ghost use Rattle.file_comtrade.specs.{SectionViews.parts_values, Sections.parts_of as parts_said};
ghost use Rattle.call_records.specs.{Parts.in_sections, Parts.parts_from, Parts.parts_in as both_parts};
ghost use Rattle.call_records.specs.{Parts.sections_said, Parts.whole as whole_file};
ghost use Rattle.call_records.specs.Read.{Reads, files_values, named_text, part_values, record_values};
ghost use Rattle.call_records.specs.SectionFaults.{refused_section};

use crate::fetch::{NamedBytes, RecorderFiles};
use crate::halt::Halt;
use crate::section_refusal::section_halt;
use base_memory::Stopped;
use file_comtrade::{Parts, parts_of};
use std::alloc::Global;

/// A part of a record.
#[derive(Clone, Copy)]
pub struct Part<'a> {
    /// The name of its file.
    pub name: &'a [u8],
    pub bytes: &'a [u8],
    /// How many lines stand before it in its file.
    pub line: usize,
}

/// The two parts of a record.
#[derive(Clone, Copy)]
pub struct RecordParts<'a> {
    pub config: Part<'a>,
    pub samples: Part<'a>,
}

// A whole file.
fn whole(file: &NamedBytes) -> Part<'_>
    ensures { part_values result ≡ whole_file (named_text file.now) }
{
    Part {
        name: file.name.as_slice(),
        bytes: file.bytes.as_slice(),
        line: 0,
    }
}

// Sections of a file of that name.
fn sections<'a>(name: &'a [u8], parts: Parts<'a>) -> RecordParts<'a>
    ensures { record_values result ≡ in_sections name.now (parts_values parts.entry) }
{
    RecordParts {
        config: Part {
            name,
            bytes: parts.config,
            line: parts.config_line,
        },
        samples: Part {
            name,
            bytes: parts.samples,
            line: parts.samples_line,
        },
    }
}

// The parts of a record in one file.
fn one_file(alloc: Global, file: &NamedBytes) -> Result<RecordParts<'_>, Halt>
    ensures { Reads record_values refused_section
        (sections_said file.now.name.items (parts_said file.now.bytes.items)) result }
{
    let name = file.name.as_slice();
    match parts_of(alloc, file.bytes.as_slice()) {
        Ok(parts) => Ok(sections(name, parts)),
        Err(Stopped::Fault(why)) => Err(section_halt(alloc, name, why)),
        Err(Stopped::Memory) => Err(Halt::Memory),
    }
}

fn parts_in(alloc: Global, files: &RecorderFiles) -> Result<RecordParts<'_>, Halt>
    ensures { Reads record_values refused_section (both_parts (files_values files.now)) result }
{
    match &files.samples {
        Some(samples) => Ok(RecordParts {
            config: whole(&files.config),
            samples: whole(samples),
        }),
        None => one_file(alloc, &files.config),
    }
}

/// The parts of the records of all recorders, or a refusal of the first that has not its sections.
pub fn all_parts(alloc: Global, files: &[RecorderFiles]) -> Result<Vec<RecordParts<'_>>, Halt>
    ensures reads { Reads (λ v. map record_values v.items) refused_section
        (parts_from (map files_values files.now) []) result }
    ensures many { IfOk result (λ v. length v.items ≡ length files.now) }
{
    let mut all = Vec::new(alloc);
    for own in files {
        let parts = parts_in(alloc, own)?;
        all.push(parts)?;
    }
    Ok(all)
}
