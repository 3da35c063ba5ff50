//! What is written of settled obligations.

ghost use Rattle.std.specs.Prelude.{◌≡◌, ◌∷◌, [], IfOk, length};
ghost use Rattle.model_line.specs.declared.script.Script.{Script};
ghost use Rattle.call_answer.specs.{Answers.Says, Study.IsStudy};
ghost use Rattle.call_study.specs.Settled.{failing_answer, trees_answer};
ghost use Rattle.call_tables.specs.Whole.{IsWhole};

use call_answer::{Said, Study};
use call_tables::{settle_all, settle_timings, settle_trees, table_of};
use model_line::Memory;
use std::alloc::Global;

/// The trees and timings by which all obligations are settled, each with at most so many analyses;
/// the status is that of their table.
pub fn trees_said(alloc: Global, study: &Study, analyses: u32) -> Result<Said, Memory>
    requires { IsWhole study.now }
    ensures { IfOk result (Says (trees_answer study.now.line study.now.scripts.items)) }
{
    let rows = settle_all(alloc, study, analyses)?;
    let table = table_of(alloc, study, rows.as_slice())?;
    let text = settle_trees(alloc, study, rows.as_slice())?;
    Ok(Said {
        status: table.status,
        text,
    })
}

/// The timings that fail obligations of the only script, or nothing; the status is that of the table of
/// its obligations.
pub fn failing_said(alloc: Global, study: &Study, analyses: u32) -> Result<Said, Memory>
    requires study { IsStudy study.now }
    requires one { length study.now.scripts.items ≡ 1 }
    ensures { IfOk result (λ said. (script : Script) →
        study.now.scripts.items ≡ script ∷ [] →
        Says (failing_answer study.now.line script) said) }
{
    let rows = settle_all(alloc, study, analyses)?;
    let table = table_of(alloc, study, rows.as_slice())?;
    let found = settle_timings(alloc, study, rows.as_slice(), 0)?;
    let status = table.status;
    match found {
        Some(text) => Ok(Said { status, text }),
        None => Ok(Said {
            status,
            text: Vec::new(alloc),
        }),
    }
}
