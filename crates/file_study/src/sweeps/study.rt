//! The scripts of all faults of a study.

ghost use Rattle.std.specs.Prelude.{[], ◌≡◌, ◌<◌, ◌++◌, IfErr, IfNone, IfOk, IfSome, OnOk, get_or};
ghost use Rattle.std.specs.Prelude.{length, map, take};
ghost use Rattle.std.specs.List.{list_any};
ghost use Rattle.std.specs.Str.{bytes_eq};
ghost use Rattle.base_memory.specs.Gives.{OfFault};
ghost use Rattle.file_tables.specs.{script.SoFar.AreOnce, script.Values.values_of};
ghost use Rattle.file_study.specs.study.Faults.{fault_values};
ghost use Rattle.file_study.specs.sweeps.Studies.{AreScriptsOf, HasTwice, IsPushed, IsRefusedBehind};
ghost use Rattle.file_study.specs.sweeps.Studies.{IsStudyRefused, script_names};

use crate::study::{Study, SweptFault};
use crate::sweeps::group::{Group, swept_values};
use crate::sweeps::study_fault::StudySweepFault;
use crate::sweeps::sweep::scripts_of_fault;
use base_memory::Stopped;
use model_line::{Line, Name, Script};
use std::alloc::Global;

/// The scripts of a study, fault by fault in file order, and how they stand in groups: the first
/// fault has the first so many of them.
#[derive(Drop)]
pub struct StudyScripts {
    pub scripts: Vec<Script>,
    pub groups: Vec<Group>,
}

/// The scripts of all faults of a study, each of which fits its line, no two of one name.
pub fn scripts_of_study(
    alloc: Global,
    study: &Study,
) -> Result<StudyScripts, Stopped<StudySweepFault>>
    ensures are { IfOk result (λ all. AreScriptsOf study.now.line
        (map fault_values study.now.faults.items) all.scripts.items all.groups.items) }
    ensures refused { IfErr result (OfFault (IsStudyRefused study.now.line
        (map fault_values study.now.faults.items))) }
{
    let mut all = StudyScripts {
        scripts: Vec::new(alloc),
        groups: Vec::new(alloc),
    };
    for i in 0..study.faults.len() {
        push_fault(alloc, &study.line, i, &study.faults[i], &mut all)?;
    }
    Ok(all)
}

// Adds the scripts of fault i.
fn push_fault(
    alloc: Global,
    line: &Line,
    i: usize,
    fault: &SweptFault,
    all: &mut StudyScripts,
) -> Result<(), Stopped<StudySweepFault>>
    requires { AreOnce (script_names all.old.scripts.items) }
    ensures pushed { OnOk result (IsPushed line.now (fault_values fault.now) all.old all.new) }
    ensures refused { IfErr result (OfFault (IsRefusedBehind line.now
        (map values_of all.old.scripts.items) i (fault_values fault.now))) }
{
    let mut own = match scripts_of_fault(alloc, line, fault) {
        Ok(own) => own,
        Err(Stopped::Fault(why)) => return Err(Stopped::Fault(StudySweepFault::Refused(
            i, fault.name, why,
        ))),
        Err(Stopped::Memory) => return Err(Stopped::Memory),
    };
    if let Some(k) = first_twice(&all.scripts, &own) {
        return Err(Stopped::Fault(StudySweepFault::Twice(i, own[k].name, k)));
    }
    let swept = swept_values(alloc, fault, own.len() as u32)?;
    all.groups.push(Group {
        name: fault.name,
        swept,
    })?;
    all.scripts.append(&mut own)?;
    Ok(())
}

// The place of the first of own scripts that has the name of one before it.
fn first_twice(done: &[Script], own: &[Script]) -> Option<usize>
    requires { AreOnce (script_names done.now) }
    ensures some { IfSome result (HasTwice (script_names done.now) (script_names own.now)) }
    ensures none { IfNone result (AreOnce (script_names done.now ++ script_names own.now)) }
{
    for k in 0..own.len() {
        if stands_before(done, own, k) {
            return Some(k);
        }
    }
    None
}

// Whether a script before own script k has its name.
fn stands_before(done: &[Script], own: &[Script], k: usize) -> bool
    requires { k < length own.now }
    ensures { result ≡ list_any (λ x. bytes_eq x (get_or (script_names own.now) k []))
        (script_names done.now ++ take k (script_names own.now)) }
{
    let parts = own.split_at(k);
    is_among(done, parts.0, &own[k])
}

// Whether some of the scripts has the name of this one.
fn is_among(done: &[Script], own: &[Script], script: &Script) -> bool
    ensures { result ≡ list_any (λ x. bytes_eq x script.now.name)
        (script_names done.now ++ script_names own.now) }
{
    is_taken(done, &script.name) || is_taken(own, &script.name)
}

fn is_taken(scripts: &[Script], name: &Name) -> bool
    ensures { result ≡ list_any (λ s. bytes_eq s.name name.now) scripts.now }
{
    scripts
        .iter()
        .any(|script| script.name.bytes() == name.bytes())
}
