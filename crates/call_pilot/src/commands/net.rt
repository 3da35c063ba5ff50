//! The command `net`: the compiled net of a line.
ghost use Rattle.std.specs.Prelude.{IfOk};
ghost use Rattle.call_pilot.specs.commands.Net.{net_answer};
ghost use Rattle.call_answer.specs.Answers.{Says};

use call_answer::Said;
use model_line::{Line, Memory};
use net_compile::{compile, net_text};
use net_gates::Compiled;
use std::alloc::Global;

/// The gates of the line's net, and the key gate and trip gate of each terminal.
pub fn print_net(alloc: Global, line: &Line) -> Result<Said, Memory>
    ensures { IfOk result (Says (net_answer line.now)) }
{
    let net = compile(alloc, line)?;
    let text = net_text(alloc, &Compiled { line, net: &net })?;
    Ok(Said::good(text))
}
