//! The command `margin`: how far the upper end of a parameter can be raised.
ghost use Rattle.std.specs.Prelude.{◌≡◌, ◌<◌, IfOk};
ghost use Rattle.model_line.specs.Parameters.{param_count};
ghost use Rattle.call_pilot.specs.commands.Margin.{margin_answer as answer_of};
ghost use Rattle.call_answer.specs.Answers.{Says};
ghost use Rattle.call_answer.specs.Study.{IsStudy};

use call_answer::{Done, Said, Study};
use judge_report::margin_answer;
use model_line::Memory;
use std::alloc::Global;

/// The line of the parameter's margin, and whether there is one.
pub fn margin(alloc: Global, study: &Study, param: u32) -> Result<Said, Memory>
    requires study { IsStudy study.now }
    requires exists { param < param_count study.now.line }
    ensures { IfOk result (Says (answer_of study.now.line study.now.scripts.items param)) }
{
    let scripts = study.scripts.as_slice();
    let answer = margin_answer(alloc, &study.compiled(), scripts, param)?;
    Ok(Said {
        status: if answer.found {
            Done::Good
        } else {
            Done::SomeUndecided
        },
        text: answer.text,
    })
}
