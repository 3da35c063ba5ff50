//! Warnings of the swept times of the faults of a study.

ghost use Rattle.std.specs.Prelude.{◌≡◌, ◌+◌, ◌++◌, ◌<◌, OnOk, length, map};
ghost use Rattle.file_study.specs.study.Faults.{fault_values, stage_values};
ghost use Rattle.call_lint.specs.warnings.SweepTests.{is_near, is_coarse, stage_sweeps, fault_sweeps};
ghost use Rattle.call_lint.specs.warnings.SweepTests.{sweep_warnings};
ghost use Rattle.call_lint.specs.warnings.Listed.{told_if};
ghost use Rattle.call_lint.specs.declared.warnings.warning.Warning.TheVariants.{Coarse};
ghost use Rattle.call_lint.specs.declared.warnings.warning.SweptTime.TheVariants.{Lasts};

use crate::warnings::listed::push_if;
use crate::warnings::warning::{SweptTime, Warning};
use file_study::study::{Stage, SweptFault};
use model_line::Memory;

/// Adds the warnings of the swept times, fault by fault.
pub fn push_sweeps(list: &mut Vec<Warning>, faults: &[SweptFault]) -> Result<(), Memory>
    ensures { OnOk result (list.new.items
        ≡ list.old.items ++ sweep_warnings 0 (map fault_values faults.now)) }
{
    for i in 0..faults.len() {
        push_fault(list, i, &faults[i])?;
    }
    Ok(())
}

fn push_fault(list: &mut Vec<Warning>, i: usize, fault: &SweptFault) -> Result<(), Memory>
    ensures { OnOk result (list.new.items
        ≡ list.old.items ++ fault_sweeps i (fault_values fault.now)) }
{
    push_if(
        list,
        is_coarse(&fault.start),
        Warning::Coarse(i, SweptTime::Start),
    )?;
    push_if(
        list,
        is_coarse(&fault.trip_within),
        Warning::Coarse(i, SweptTime::TripWithin),
    )?;
    push_stages(list, i, &fault.stages)
}

fn push_stages(list: &mut Vec<Warning>, i: usize, stages: &[Stage]) -> Result<(), Memory>
    ensures { OnOk result (list.new.items
        ≡ list.old.items ++ stage_sweeps i 0 (map stage_values stages.now)) }
{
    for s in 0..stages.len() {
        push_stage(list, i, s, &stages[s])?;
    }
    Ok(())
}

fn push_stage(list: &mut Vec<Warning>, i: usize, s: usize, stage: &Stage) -> Result<(), Memory>
    ensures { OnOk result (list.new.items
        ≡ list.old.items ++ told_if (is_coarse stage.now.lasts.items) (Coarse i (Lasts s))) }
{
    push_if(
        list,
        is_coarse(&stage.lasts),
        Warning::Coarse(i, SweptTime::Lasts(s)),
    )
}

// Whether a tick lies between two values of a time that follow one another.
fn is_coarse(time: &[u32]) -> bool
    ensures { result ≡ is_coarse time.now }
{
    for k in 0..time.len().saturating_sub(1) {
        if !is_near(time, k) {
            return true;
        }
    }
    false
}

fn is_near(time: &[u32], k: usize) -> bool
    requires { k + 1 < length time.now }
    ensures { result ≡ is_near time.now k }
{
    u64::from(time[k + 1]) <= u64::from(time[k]) + 1
}
