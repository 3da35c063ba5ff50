//! The command `migrate`: the canonical line file of version 2, with times in microseconds.
ghost use Rattle.std.specs.Prelude.{IfOk};
ghost use Rattle.call_pilot.specs.commands.Migrate.{migrate_answer};
ghost use Rattle.call_answer.specs.Answers.{Says};

use call_answer::Said;
use file_line::print_line_us;
use model_line::{Line, Memory};
use std::alloc::Global;

/// The line, with every time as an array of two numbers of microseconds.
pub fn print_microseconds(alloc: Global, line: &Line) -> Result<Said, Memory>
    ensures { IfOk result (Says (migrate_answer line.now)) }
{
    let text = print_line_us(alloc, line)?;
    Ok(Said::good(text))
}
