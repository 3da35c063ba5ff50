//! The gates of one terminal.

ghost use Rattle.std.specs.Prelude.{◌<◌, ◌≤◌, ◌+◌, length, IfOk};
ghost use Rattle.model_line.specs.Parameters.{terminal_count};
ghost use Rattle.net_compile.specs.{Growing.ExtendsFor, Compiled.AreEndsOf};

use crate::builder::NetBuilder;
use crate::program_gates::{Ends, compile_program};
use model_line::{Line, Memory};
use model_plain::terminal_program;
use std::alloc::Global;

/// The gates of a terminal's program, at most 170.
pub fn terminal_gates(
    alloc: Global,
    net: &mut NetBuilder,
    line: &Line,
    terminal: u32,
) -> Result<Ends, Memory>
    requires exists { terminal < terminal_count line.now }
    requires room { length net.old + 170 ≤ 512 }
    ensures adds { ExtendsFor line.now 170 net.old net.new }
    ensures made { IfOk result (AreEndsOf line.now terminal net.new) }
{
    let program = terminal_program(alloc, line, terminal)?;
    compile_program(alloc, net, &program)
}
