//! Why a study comes to no scripts.

use crate::sweeps::fault::SweepFault;
use model_line::Name;
use std::fmt;

/// Why the faults of a study come to no scripts. The first number is that of the fault in file
/// order, counted from 0.
#[derive(Clone, Copy, Drop)]
pub enum StudySweepFault {
    /// The fault of that name has none.
    Refused(usize, Name, SweepFault),
    /// A script of the fault has this name, as one before it; its place, counted from 0.
    Twice(usize, Name, usize),
}

impl fmt::Display for StudySweepFault {
    fn fmt<W: fmt::Write>(&self, f: &mut fmt::Formatter<W>) -> fmt::Result {
        match self {
            StudySweepFault::Refused(i, name, why) => write_refused(f, *i, name, why),
            StudySweepFault::Twice(i, name, _) => write_twice(f, *i, name),
        }
    }
}

fn write_refused<W: fmt::Write>(
    f: &mut fmt::Formatter<W>,
    i: usize,
    name: &Name,
    why: &SweepFault,
) -> fmt::Result {
    write!(f, "fault[{i}] ")?;
    write_name(f, name)?;
    write!(f, ": {why}")
}

fn write_twice<W: fmt::Write>(f: &mut fmt::Formatter<W>, i: usize, name: &Name) -> fmt::Result {
    write!(f, "fault[{i}]: another script has the name ")?;
    write_name(f, name)?;
    f.write_str(": write another name of one of the faults")
}

fn write_name<W: fmt::Write>(f: &mut fmt::Formatter<W>, name: &Name) -> fmt::Result {
    match str::from_utf8(name.bytes()) {
        Ok(text) => f.write_str(text),
        Err(_) => f.write_str("?"),
    }
}
