//! Why a record in one file is refused, as the line on standard error says it.

ghost use Rattle.std.specs.Prelude.{◌≡◌, ◌∷◌, [], codes};
ghost use Rattle.file_comtrade.specs.declared.sections.SectionFault.TheVariants as fault_of;
ghost use Rattle.call_records.specs.{Halts.Tells, RecordFaults.place_line};
ghost use Rattle.call_records.specs.SectionFaults.{section_line, section_refusal, section_words};

use crate::halt::Halt;
use crate::told::at_place;
use file_comtrade::SectionFault;
use itoa::Buffer;
use std::alloc::Global;

/// The line at which the sections of a record in one file are wrong.
pub fn section_line(why: SectionFault) -> usize
    ensures { result ≡ section_line why }
{
    match why {
        SectionFault::NoConfig => 1,
        SectionFault::NoData(n) => n,
        SectionFault::Twice(n) => n,
        SectionFault::Behind(n) => n,
        SectionFault::Wrong(n) => n,
        SectionFault::Count { line, found: _ } => line,
    }
}

// Another number of bytes stands behind a line than it says.
fn count_halt(alloc: Global, name: &[u8], line: usize, found: usize) -> Halt
    ensures { Tells (place_line name.now line 1 (section_words (fault_of.Count line found))) result }
{
    let mut digits = Buffer::new();
    let found = digits.format(found).as_bytes();
    at_place(
        alloc,
        name,
        line as u128,
        1,
        &[
            b"not the number of bytes of the data: ",
            found,
            b" stand behind this line",
        ],
    )
}

/// A file of that name has not the sections of a record.
pub fn section_halt(alloc: Global, name: &[u8], why: SectionFault) -> Halt
    ensures { Tells (section_refusal (record { name = name.now; why = why })) result }
{
    let line = section_line(why) as u128;
    match why {
        SectionFault::NoConfig => at_place(
            alloc,
            name,
            line,
            1,
            &[b"there is no line --- file type: CFG ---"],
        ),
        SectionFault::NoData(_) => at_place(
            alloc,
            name,
            line,
            1,
            &[
                b"no line --- file type: DAT ASCII --- or --- file type: DAT BINARY: N --- stands behind this one",
            ],
        ),
        SectionFault::Twice(_) => at_place(alloc, name, line, 1, &[b"a second configuration"]),
        SectionFault::Behind(_) => at_place(
            alloc,
            name,
            line,
            1,
            &[b"a section stands behind the data, which are the last one"],
        ),
        SectionFault::Wrong(_) => at_place(
            alloc,
            name,
            line,
            1,
            &[b"neither DAT ASCII nor DAT BINARY: N, with N the number of bytes"],
        ),
        SectionFault::Count { line, found } => count_halt(alloc, name, line, found),
    }
}
