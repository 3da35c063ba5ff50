//! What the command says.

ghost use Rattle.std.specs.Prelude.{◌≡◌, IfOk};
ghost use Rattle.std.specs.List.{All};
ghost use Rattle.call_answer.specs.{Answers.Says, Answers.status_by};
ghost use Rattle.file_borders.specs.Studies.{IsAnswerable};
ghost use Rattle.call_times.specs.Times.{times_answer};

use crate::fault::push_faults;
use crate::found::Found;
use crate::rows::push_header;
use call_answer::{Done, Said};
use file_borders::LooseFault;
use model_line::Memory;
use net_gates::Compiled;
use std::alloc::Global;

/// The table of times of faults of a line, of each after at most so many analyses. The status is 1 where something
/// fails, 2 where nothing does and something is open, else 0.
pub fn times_table(
    alloc: Global,
    compiled: &Compiled<'_>,
    faults: &[LooseFault],
    analyses: u32,
) -> Result<Said, Memory>
    requires { All (IsAnswerable compiled.now.line.now) faults.now }
    ensures { IfOk result (Says (times_answer compiled.now.line.now faults.now)) }
{
    let mut text = Vec::new(alloc);
    push_header(alloc, &mut text)?;
    let found = push_faults(alloc, &mut text, compiled, faults, analyses)?;
    Ok(Said {
        status: status_of(found),
        text,
    })
}

fn status_of(found: Found) -> Done
    ensures { result ≡ status_by found.some_fails found.some_open }
{
    if found.some_fails {
        Done::SomeNo
    } else if found.some_open {
        Done::SomeUndecided
    } else {
        Done::Good
    }
}
