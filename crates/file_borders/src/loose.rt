//! The script of a fault whose times are not known.

ghost use Rattle.std.specs.Prelude.{◌≡◌, None, Some, IfErr, IfOk, OnOk};
ghost use Rattle.base_memory.specs.Gives.{OfFault};
ghost use Rattle.file_study.specs.study.Faults.{fault_values};
ghost use Rattle.file_borders.specs.Loose.{IsAccepted, IsLooseOf, refusal_of};
ghost use Rattle.file_borders.specs.Studies.{has_interval};

use crate::checks::check;
use crate::drawn::{draw, first_of};
use crate::fault::BordersFault;
use crate::part::{borders_at, part_of};
use base_memory::{Memory, Stopped};
use file_study::study::SweptFault;
use model_borders::LooseScript;
use model_line::{Kind, Line};
use run_signal::Within;
use std::alloc::Global;

/// A fault whose times are not known: an interval for each of them, and a script whose borders are sums of them, the
/// first of which is its start. An internal fault is to be tripped so many ticks `within` its start; of an external
/// one that is 0.
#[derive(Drop)]
pub struct LooseFault {
    pub kind: Kind,
    pub within: u32,
    pub part: Vec<Within>,
    pub script: LooseScript,
}

/// Whether a stage of a fault lasts for an interval.
pub fn is_loose(fault: &SweptFault) -> bool
    ensures { result ≡ has_interval (fault_values fault.now) }
{
    for stage in &fault.stages {
        if stage.between {
            return true;
        }
    }
    false
}

/// A fault of a line whose stages may last for intervals, or the first of what is wrong with it.
pub fn loose_fault(
    alloc: Global,
    line: &Line,
    fault: &SweptFault,
) -> Result<LooseFault, Stopped<BordersFault>>
    ensures is { IfOk result (IsLooseOf (fault_values fault.now)) }
    ensures accepted { OnOk result (refusal_of line.now (fault_values fault.now) ≡ None) }
    ensures refused { IfErr result (OfFault (λ why. refusal_of line.now (fault_values fault.now) ≡ Some why)) }
{
    if let Err(why) = check(line, fault) {
        return Err(Stopped::Fault(why));
    }
    let loose = drawn_fault(alloc, fault)?;
    Ok(loose)
}

// The same of a fault with which nothing is wrong.
fn drawn_fault(alloc: Global, fault: &SweptFault) -> Result<LooseFault, Memory>
    requires { IsAccepted (fault_values fault.now) }
    ensures { IfOk result (IsLooseOf (fault_values fault.now)) }
{
    let start = first_of(&fault.start);
    let drawn = draw(alloc, start, &fault.stages)?;
    let borders = borders_at(alloc, &drawn.borders)?;
    Ok(LooseFault {
        kind: fault.kind,
        within: first_of(&fault.trip_within),
        part: part_of(alloc, &fault.stages)?,
        script: LooseScript {
            name: fault.name,
            borders,
            spans: drawn.spans,
        },
    })
}
