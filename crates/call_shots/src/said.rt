//! What the command says.

ghost use Rattle.std.specs.Prelude.{IfOk};
ghost use Rattle.call_answer.specs.Answers.{Says};
ghost use Rattle.call_verdicts.specs.Cases.{IsCases};
ghost use Rattle.call_shots.specs.Said.{IsForm, shots_answer};

use crate::choice::choices_of;
use crate::delays::delays_text;
use crate::rows::rows_of;
use crate::shots::shots_of;
use crate::states::states_text;
use crate::table::table_text;
use call_answer::Said;
use call_ask::ShotsForm;
use call_verdicts::{Cases, Finding, find_all, status_of};
use model_line::Memory;
use std::alloc::Global;

/// The shots of all faults, in this form, each obligation settled after at most so many analyses: the
/// status is that of the table of verdicts.
pub fn shots_table(
    alloc: Global,
    cases: &Cases,
    form: ShotsForm,
    analyses: u32,
) -> Result<Said, Memory>
    requires { IsCases cases.now }
    ensures { IfOk result (Says (shots_answer form cases.now.compiled.line.now
        cases.now.scripts.now cases.now.groups.now)) }
{
    let found = find_all(alloc, cases, analyses)?;
    let shots = shots_of(alloc, cases, found.as_slice())?;
    let text = told(alloc, cases, form, shots.as_slice(), analyses)?;
    Ok(Said {
        status: status_of(found.as_slice()),
        text,
    })
}

fn told(
    alloc: Global,
    cases: &Cases,
    form: ShotsForm,
    shots: &[Finding],
    analyses: u32,
) -> Result<Vec<u8>, Memory>
    requires { IsCases cases.now }
    ensures { IfOk result (λ text. IsForm form cases.now.compiled.line.now cases.now.scripts.now
        cases.now.groups.now shots.now text.items) }
{
    match form {
        ShotsForm::Expected => {
            let rows = rows_of(alloc, cases, shots)?;
            table_text(alloc, cases, shots, rows.as_slice())
        }
        ShotsForm::States => states_text(alloc, cases, shots),
        ShotsForm::Delays => {
            let timings = choices_of(alloc, cases, shots, analyses)?;
            delays_text(alloc, cases, shots, timings.as_slice())
        }
    }
}
