//! What the command says of faults.

ghost use Rattle.std.specs.Prelude.{IfOk};
ghost use Rattle.call_answer.specs.Answers.{Says};
ghost use Rattle.call_verdicts.specs.{Cases.IsCases, Faults.faults_answer};

use crate::cases::Cases;
use crate::fault_table::faults_text;
use crate::finding::find_all;
use crate::verdicts::status_of;
use call_answer::Said;
use model_line::Memory;
use std::alloc::Global;

/// The table of faults, a record for each fault and terminal, each obligation settled after at most
/// so many analyses: the status is that of the table of verdicts.
pub fn faults_table(alloc: Global, cases: &Cases, analyses: u32) -> Result<Said, Memory>
    requires { IsCases cases.now }
    ensures { IfOk result (Says
        (faults_answer cases.now.compiled.line.now cases.now.scripts.now cases.now.groups.now)) }
{
    let found = find_all(alloc, cases, analyses)?;
    let text = faults_text(alloc, cases, found.as_slice())?;
    Ok(Said {
        status: status_of(found.as_slice()),
        text,
    })
}
