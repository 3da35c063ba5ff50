//! What the command says.

ghost use Rattle.std.specs.Prelude.{◌≡◌, ◌<◌, ◌^◌, false, length, IfOk};
ghost use Rattle.call_answer.specs.{Answers.Says, Answers.status_by};
ghost use Rattle.call_races.specs.Races.{races_answer};

use crate::faults::push_faults;
use crate::rows::push_header;
use call_answer::{Done, Said};
use file_study::sweeps::Group;
use model_line::{Memory, Script};
use net_gates::Compiled;
use std::alloc::Global;

/// The table of races over scripts, which stand in groups one after another: each group is a fault.
/// The status is 1 where a trip may be set in an external fault, else 0.
pub fn races_table(
    alloc: Global,
    compiled: &Compiled<'_>,
    scripts: &[Script],
    groups: &[Group],
) -> Result<Said, Memory>
    requires { length scripts.now < 2 ^ 32 }
    ensures { IfOk result (Says (races_answer compiled.now.line.now scripts.now groups.now)) }
{
    let mut text = Vec::new(alloc);
    push_header(alloc, &mut text)?;
    let trips = push_faults(alloc, &mut text, compiled, groups, scripts)?;
    Ok(Said {
        status: status_of(trips),
        text,
    })
}

fn status_of(trips: bool) -> Done
    ensures { result ≡ status_by trips false }
{
    if trips { Done::SomeNo } else { Done::Good }
}
