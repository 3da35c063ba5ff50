//! The faults of a study whose times are not known.

ghost use Rattle.std.specs.Prelude.{◌≡◌, ◌++◌, ◌∷◌, [], List, None, Some, true, IfErr, IfOk, OnOk, map};
ghost use Rattle.std.specs.List.{All};
ghost use Rattle.base_memory.specs.Gives.{OfFault};
ghost use Rattle.file_study.specs.study.Faults.{FaultValues, fault_values};
ghost use Rattle.file_borders.specs.Loose.{IsLooseOf};
ghost use Rattle.file_borders.specs.Studies.{AreLooseOf, IsAnswerable, IsRefusedAt, IsRefusedIn, IsStudyRefused};
ghost use Rattle.file_borders.specs.Studies.{has_interval, study_refusal, with_intervals};

use crate::fault::BordersFault;
use crate::loose::{LooseFault, is_loose, loose_fault};
use crate::room::played_ticks;
use base_memory::Stopped;
use file_study::study::{Study, SweptFault};
use model_line::{Line, Name};
use std::alloc::Global;

/// Why a study has no faults whose times are not known, or one of them has no script. The first number is that of the
/// fault in file order, counted from 0.
#[derive(Clone, Copy, Drop)]
pub enum StudyBordersFault {
    /// No stage lasts for an interval.
    NoTimes,
    /// The fault of that name has no script.
    Refused(usize, Name, BordersFault),
}

/// The faults of a study that have a stage which lasts for an interval, in their order, or the first of what is wrong
/// with them.
pub fn loose_faults(
    alloc: Global,
    study: &Study,
) -> Result<Vec<LooseFault>, Stopped<StudyBordersFault>>
    ensures are { IfOk result (λ all.
        AreLooseOf (with_intervals (map fault_values study.now.faults.items)) all.items) }
    ensures can { IfOk result (λ all. All (IsAnswerable study.now.line) all.items) }
    ensures refused { IfErr result (OfFault
        (IsStudyRefused study.now.line (map fault_values study.now.faults.items))) }
{
    let all = all_loose(alloc, &study.line, study.faults.as_slice())?;
    if all.is_empty() {
        return Err(Stopped::Fault(StudyBordersFault::NoTimes));
    }
    Ok(all)
}

// The same, but that there may be none.
fn all_loose(
    alloc: Global,
    line: &Line,
    faults: &[SweptFault],
) -> Result<Vec<LooseFault>, Stopped<StudyBordersFault>>
    ensures are { IfOk result (λ all. AreLooseOf (with_intervals (map fault_values faults.now)) all.items) }
    ensures can { IfOk result (λ all. All (IsAnswerable line.now) all.items) }
    ensures refused { IfErr result (OfFault (IsRefusedIn line.now (map fault_values faults.now))) }
{
    let mut all = Vec::new(alloc);
    for i in 0..faults.len() {
        push_loose(alloc, line, i, &faults[i], &mut all)?;
    }
    Ok(all)
}

// Appends fault i of a study, if a stage of it lasts for an interval.
#[tactic(auto, using(crate::proofs::Studies::are_more, crate::proofs::Studies::are_same))]
fn push_loose(
    alloc: Global,
    line: &Line,
    i: usize,
    fault: &SweptFault,
    all: &mut Vec<LooseFault>,
) -> Result<(), Stopped<StudyBordersFault>>
    ensures are { OnOk result ((fs : List FaultValues) → AreLooseOf (with_intervals fs) all.old.items →
        AreLooseOf (with_intervals (fs ++ fault_values fault.now ∷ [])) all.new.items) }
    ensures can { OnOk result (All (IsAnswerable line.now) all.old.items → All (IsAnswerable line.now) all.new.items) }
    ensures well { OnOk result (has_interval (fault_values fault.now) ≡ true →
        study_refusal line.now (fault_values fault.now) ≡ None) }
    ensures refused { IfErr result (OfFault (λ why. (has_interval (fault_values fault.now) ≡ true)
        × IsRefusedAt line.now i (fault_values fault.now) why)) }
{
    if !is_loose(fault) {
        return Ok(());
    }
    let loose = loose_at(alloc, line, i, fault)?;
    all.push(loose)?;
    Ok(())
}

// Fault i of a study.
fn loose_at(
    alloc: Global,
    line: &Line,
    i: usize,
    fault: &SweptFault,
) -> Result<LooseFault, Stopped<StudyBordersFault>>
    requires { has_interval (fault_values fault.now) ≡ true }
    ensures is { IfOk result (λ loose. IsLooseOf (fault_values fault.now) loose × IsAnswerable line.now loose) }
    ensures well { OnOk result (study_refusal line.now (fault_values fault.now) ≡ None) }
    ensures refused { IfErr result (OfFault (IsRefusedAt line.now i (fault_values fault.now))) }
{
    match answerable(alloc, line, fault) {
        Ok(loose) => Ok(loose),
        Err(Stopped::Fault(why)) => Err(Stopped::Fault(StudyBordersFault::Refused(
            i, fault.name, why,
        ))),
        Err(Stopped::Memory) => Err(Stopped::Memory),
    }
}

// A fault that can be answered, or what is wrong with it.
#[tactic(auto, using(crate::proofs::Studies::fault_is))]
fn answerable(
    alloc: Global,
    line: &Line,
    fault: &SweptFault,
) -> Result<LooseFault, Stopped<BordersFault>>
    requires { has_interval (fault_values fault.now) ≡ true }
    ensures is { IfOk result (λ loose. IsLooseOf (fault_values fault.now) loose × IsAnswerable line.now loose) }
    ensures well { OnOk result (study_refusal line.now (fault_values fault.now) ≡ None) }
    ensures refused { IfErr result (OfFault (λ why. study_refusal line.now (fault_values fault.now) ≡ Some why)) }
{
    let loose = loose_fault(alloc, line, fault)?;
    let ticks = played_ticks(line, loose.part.as_slice());
    if ticks > 4000 {
        let long = BordersFault::PlayedLong(ticks, line.tick_us);
        return Err(Stopped::Fault(long));
    }
    Ok(loose)
}
