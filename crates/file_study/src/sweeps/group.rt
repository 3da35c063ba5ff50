//! The scripts of a fault as a group.

ghost use Rattle.std.specs.Prelude.{◌≡◌, ◌≤◌, ◌++◌, [], ◌∷◌, IfOk, OnOk, length, map};
ghost use Rattle.file_study.specs.study.Faults.{fault_values};
ghost use Rattle.file_study.specs.sweeps.Choices.{choice_values};
ghost use Rattle.file_study.specs.sweeps.Groups.{group_values, of_swept, single_group, swept_from};
ghost use Rattle.file_study.specs.sweeps.Groups.{values_in};
ghost use Rattle.file_study.specs.sweeps.Sweeps.{times_of};

use crate::study::SweptFault;
use crate::sweeps::choice::{Choice, choice_at};
use model_line::{Memory, Name, Script};
use std::alloc::Global;

/// A fault and its scripts, which stand one after another in a list: its name, and for each of its
/// scripts the values of its swept times, in ticks: the start, `trip_within`, then how long each
/// stage lasts. A script of a fault with nothing swept has none.
#[derive(Drop)]
pub struct Group {
    pub name: Name,
    pub swept: Vec<Vec<u32>>,
}

/// The groups of scripts that stand in a file of their own: each is one fault.
pub fn groups_of_scripts(alloc: Global, scripts: &[Script]) -> Result<Vec<Group>, Memory>
    ensures { IfOk result (λ v. map group_values v.items
        ≡ map single_group scripts.now) }
{
    let mut groups = Vec::new(alloc);
    for script in scripts {
        let mut swept = Vec::new(alloc);
        swept.push(Vec::new(alloc))?;
        groups.push(Group {
            name: script.name,
            swept,
        })?;
    }
    Ok(groups)
}

/// The values of the swept times of the first n choices of a fault.
pub(crate) fn swept_values(
    alloc: Global,
    fault: &SweptFault,
    n: u32,
) -> Result<Vec<Vec<u32>>, Memory>
    ensures { IfOk result (λ v. map (λ w. w.items) v.items
        ≡ swept_from (fault_values fault.now) 0 n) }
{
    let mut all = Vec::new(alloc);
    for k in 0..n {
        let choice = choice_at(alloc, fault, k)?;
        let values = swept(alloc, fault, &choice)?;
        all.push(values)?;
    }
    Ok(all)
}

// The values of a choice whose times are swept.
fn swept(alloc: Global, fault: &SweptFault, choice: &Choice) -> Result<Vec<u32>, Memory>
    requires { length choice.now.lasts.items ≡ length fault.now.stages.items }
    ensures { IfOk result (λ v. v.items
        ≡ of_swept (times_of (fault_values fault.now)) (values_in (choice_values choice.now))) }
{
    let mut values = Vec::new(alloc);
    push_swept(&mut values, &fault.start, choice.start)?;
    push_swept(&mut values, &fault.trip_within, choice.within)?;
    for i in 0..fault.stages.len() {
        push_swept(&mut values, &fault.stages[i].lasts, choice.lasts[i])?;
    }
    Ok(values)
}

fn push_swept(values: &mut Vec<u32>, time: &[u32], value: u32) -> Result<(), Memory>
    ensures { OnOk result (values.new.items
        ≡ values.old.items ++ of_swept (time.now ∷ []) (value ∷ [])) }
{
    if time.len() > 1 {
        values.push(value)?;
    }
    Ok(())
}
