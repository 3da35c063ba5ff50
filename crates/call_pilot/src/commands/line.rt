//! The command `line`: the canonical line file, with times in ticks.
ghost use Rattle.std.specs.Prelude.{IfOk};
ghost use Rattle.call_pilot.specs.commands.Line.{line_answer};
ghost use Rattle.call_answer.specs.Answers.{Says};

use call_answer::Said;
use file_line::print_line;
use model_line::{Line, Memory};
use std::alloc::Global;

/// The line, with every time as an array of two numbers of ticks.
pub fn print_ticks(alloc: Global, line: &Line) -> Result<Said, Memory>
    ensures { IfOk result (Says (line_answer line.now)) }
{
    let text = print_line(alloc, line)?;
    Ok(Said::good(text))
}
