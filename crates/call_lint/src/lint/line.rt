//! Over a line file and its scripts.

ghost use Rattle.std.specs.Prelude.{IfOk};
ghost use Rattle.call_lint.specs.lint.Outcomes.{IsLinted, IsScriptsLinted};

use crate::lint::accepted::lint_accepted;
use crate::lint::linted::Linted;
use crate::lint::sheet::{Names, Sheet};
use base_memory::{Memory, Stopped};
use call_refused::{refused_line, refused_scripts};
use file_line::read_line;
use file_tables::script::read_scripts;
use model_line::Line;
use std::alloc::Global;

/// What is suspicious in a line file and its scripts, or where and why one of them is refused.
pub fn lint_line(
    alloc: Global,
    line: &[u8],
    scripts: &[u8],
    names: Names<'_>,
) -> Result<Linted, Memory>
    ensures { IfOk result (λ linted. IsLinted line.now scripts.now linted.outcome) }
{
    match read_line(alloc, line) {
        Ok(own) => lint_scripts(alloc, &own, line, scripts, names),
        Err(Stopped::Memory) => Err(Memory),
        Err(Stopped::Fault(fault)) => Ok(Linted::refused(refused_line(
            alloc, names.line, line, &fault,
        )?)),
    }
}

fn lint_scripts(
    alloc: Global,
    own: &Line,
    line: &[u8],
    scripts: &[u8],
    names: Names<'_>,
) -> Result<Linted, Memory>
    ensures { IfOk result (λ linted. IsScriptsLinted own.now scripts.now linted.outcome) }
{
    match read_scripts(alloc, own, scripts) {
        Ok(read) => {
            let sheet = Sheet::Files {
                line,
                scripts,
                names,
            };
            lint_accepted(alloc, own, sheet, &read, &[])
        }
        Err(Stopped::Memory) => Err(Memory),
        Err(Stopped::Fault(fault)) => Ok(Linted::refused(refused_scripts(
            alloc,
            names.scripts,
            scripts,
            &fault,
        )?)),
    }
}
