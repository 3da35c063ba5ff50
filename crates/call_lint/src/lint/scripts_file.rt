//! Over a file of scripts, and the line that it is of.

ghost use Rattle.std.specs.Prelude.{IfOk};
ghost use Rattle.call_lint.specs.lint.Outcomes.{IsSaid, IsShownLinted};

use crate::lint::linted::Linted;
use crate::lint::listed::linted_by;
use crate::lint::sheet::{Names, Sheet};
use crate::warnings::push_shown;
use base_memory::{Memory, Stopped};
use call_refused::refused_scripts;
use file_tables::script::read_scripts;
use model_line::Line;
use std::alloc::Global;

/// What is suspicious in the scripts of these bytes, of a line that has been read of those of
/// `line`, or where and why they are refused.
pub fn lint_scripts_file(
    alloc: Global,
    own: &Line,
    line: &[u8],
    scripts: &[u8],
    names: Names<'_>,
) -> Result<Linted, Memory>
    ensures found { IfOk result (λ linted. IsShownLinted own.now scripts.now linted.outcome) }
    ensures said { IfOk result (λ linted.
        IsSaid names.entry.scripts.now scripts.now linted.outcome linted.text.items) }
{
    match read_scripts(alloc, own, scripts) {
        Ok(read) => {
            let sheet = Sheet::Files {
                line,
                scripts,
                names,
            };
            let mut list = Vec::new(alloc);
            push_shown(&mut list, own, &read)?;
            linted_by(alloc, sheet, own, &read, 0, &list)
        }
        Err(Stopped::Memory) => Err(Memory),
        Err(Stopped::Fault(fault)) => Ok(Linted::refused(refused_scripts(
            alloc,
            names.scripts,
            scripts,
            &fault,
        )?)),
    }
}
