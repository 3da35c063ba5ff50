//! The verdict of one terminal.

ghost use Rattle.std.specs.Prelude.{◌<◌, IfOk};
ghost use Rattle.model_line.specs.{Fits.Fits, Parameters.terminal_count};
ghost use Rattle.judge_split.specs.Search.{IsVerdictOf};

use judge_verdict::verdict::{Verdict, certify};
use model_line::{Memory, Script};
use net_gates::Compiled;
use std::alloc::Global;

/// The verdict of a script at a terminal, over the declared box.
pub fn verdict_at(
    alloc: Global,
    compiled: &Compiled<'_>,
    script: &Script,
    terminal: u32,
) -> Result<Verdict, Memory>
    requires fits { Fits compiled.now.line.now script.now }
    requires terminal { terminal < terminal_count compiled.now.line.now }
    ensures { IfOk result (λ said. IsVerdictOf compiled.now.line.now script.now terminal said) }
{
    let said = certify(alloc, compiled, script)?;
    let mut verdicts = said.verdicts;
    Ok(verdicts.swap_remove(terminal as usize))
}
