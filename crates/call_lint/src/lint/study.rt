//! Over a study.

ghost use Rattle.std.specs.Prelude.{IfOk, map};
ghost use Rattle.file_study.specs.study.Faults.{fault_values};
ghost use Rattle.call_lint.specs.lint.Outcomes.{IsFaultsLinted, IsSaid, IsStudyLinted};

use crate::lint::accepted::lint_accepted;
use crate::lint::linted::Linted;
use crate::lint::sheet::Sheet;
use crate::warnings::push_sweeps;
use base_memory::{Memory, Stopped};
use call_refused::{refused_study, refused_sweep};
use file_study::study::{Study, read_study};
use file_study::sweeps::{Group, scripts_of_study};
use std::alloc::Global;

/// What is suspicious in a study, as `lint_study_file` finds it.
pub fn lint_study(alloc: Global, bytes: &[u8], name: &str) -> Result<Linted, Memory>
    ensures { IfOk result (λ linted. IsStudyLinted bytes.now linted.outcome) }
{
    lint_study_file(alloc, bytes, name)
}

/// What is suspicious in a study of this name and the scripts that it comes to, or where and why it
/// is refused.
pub fn lint_study_file(alloc: Global, bytes: &[u8], name: &str) -> Result<Linted, Memory>
    ensures found { IfOk result (λ linted. IsStudyLinted bytes.now linted.outcome) }
    ensures said { IfOk result (λ linted.
        IsSaid name.now bytes.now linted.outcome linted.text.items) }
{
    match read_study(alloc, bytes) {
        Ok(study) => lint_faults(alloc, &study, bytes, name),
        Err(Stopped::Memory) => Err(Memory),
        Err(Stopped::Fault(fault)) => {
            Ok(Linted::refused(refused_study(alloc, name, bytes, &fault)?))
        }
    }
}

fn lint_faults(alloc: Global, study: &Study, bytes: &[u8], name: &str) -> Result<Linted, Memory>
    ensures found { IfOk result (λ linted. IsFaultsLinted study.now.line
        (map fault_values study.now.faults.items) linted.outcome) }
    ensures said { IfOk result (λ linted.
        IsSaid name.now bytes.now linted.outcome linted.text.items) }
{
    match scripts_of_study(alloc, study) {
        Ok(all) => {
            let numbers = numbers_of(alloc, &all.groups)?;
            let sheet = Sheet::Study {
                bytes,
                name,
                faults: &numbers,
                hertz: study.units.hertz,
                swept: &study.faults,
            };
            let mut sweeps = Vec::new(alloc);
            push_sweeps(&mut sweeps, &study.faults)?;
            lint_accepted(alloc, &study.line, sheet, &all.scripts, &sweeps)
        }
        Err(Stopped::Memory) => Err(Memory),
        Err(Stopped::Fault(fault)) => {
            Ok(Linted::refused(refused_sweep(alloc, name, bytes, &fault)?))
        }
    }
}

// The number of the fault that each script is of.
fn numbers_of(alloc: Global, groups: &[Group]) -> Result<Vec<usize>, Memory> {
    let mut numbers = Vec::new(alloc);
    for (i, group) in groups.iter().enumerate() {
        for _ in 0..group.swept.len() {
            numbers.push(i)?;
        }
    }
    Ok(numbers)
}
