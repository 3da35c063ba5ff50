//! The files in which something is found.

use crate::warnings::SweptTime;
use file_study::study::SweptFault;

/// The names of a line file and of a file of scripts, as they are to be told.
#[derive(Clone, Copy)]
pub struct Names<'a> {
    pub line: &'a str,
    pub scripts: &'a str,
}

/// The files: a line and its scripts, or a study, with the number of the fault that each script is
/// of, with so many hertz where it has cycles, and with its faults.
#[derive(Clone, Copy)]
pub enum Sheet<'a> {
    Files {
        line: &'a [u8],
        scripts: &'a [u8],
        names: Names<'a>,
    },
    Study {
        bytes: &'a [u8],
        name: &'a str,
        faults: &'a [usize],
        hertz: Option<u32>,
        swept: &'a [SweptFault],
    },
}

/// The fault of a study that has this number.
pub fn swept_fault(sheet: Sheet<'_>, number: usize) -> Option<&SweptFault> {
    match sheet {
        Sheet::Study { swept, .. } => swept.get(number),
        Sheet::Files { .. } => None,
    }
}

/// The values of a swept time of a fault, in ticks.
pub fn swept_time(fault: &SweptFault, time: SweptTime) -> &[u32] {
    match time {
        SweptTime::Start => &fault.start,
        SweptTime::TripWithin => &fault.trip_within,
        SweptTime::Lasts(s) => match fault.stages.get(s) {
            Some(stage) => &stage.lasts,
            None => &[],
        },
    }
}

/// The number of the fault of a study that a script is of.
pub fn fault_of(faults: &[usize], script: usize) -> usize {
    faults.get(script).copied().unwrap_or(0)
}
