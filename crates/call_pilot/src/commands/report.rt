//! The command `report`: when each terminal may and must trip, and its margin.
ghost use Rattle.std.specs.Prelude.{IfOk};
ghost use Rattle.call_pilot.specs.commands.Report.{report_answer};
ghost use Rattle.call_answer.specs.{Answers.Says, Study.IsStudy};

use call_answer::{Said, Study};
use judge_report::report_text;
use model_line::Memory;
use std::alloc::Global;

/// A row for each script and terminal.
pub fn report(alloc: Global, study: &Study) -> Result<Said, Memory>
    requires { IsStudy study.now }
    ensures { IfOk result (Says (report_answer study.now.line study.now.scripts.items)) }
{
    let text = report_text(alloc, &study.compiled(), study.scripts.as_slice())?;
    Ok(Said::good(text))
}
