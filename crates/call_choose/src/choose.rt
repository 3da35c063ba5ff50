//! What the command says.

ghost use Rattle.std.specs.Prelude.{◌≡◌, ◌≤◌, Err, Ok, IfOk, List, length, map};
ghost use Rattle.std.specs.List.{All};
ghost use Rattle.model_line.specs.Fits.{Fits};
ghost use Rattle.call_answer.specs.Answers.{Says};
ghost use Rattle.call_choose.specs.{Answers.choose_answer, Asked.rows_asked, Rows.Row};
ghost use Rattle.call_choose.specs.declared.fault.ChooseFault.{ChooseFault as FaultOf};
ghost use Rattle.base_memory.specs.declared.stopped.Stopped.TheVariants.{Fault};

use crate::asked::settings_of;
use crate::fault::ChooseFault;
use crate::table::choose_table;
use base_memory::Stopped;
use call_answer::Said;
use model_line::Script;
use net_gates::Compiled;
use std::alloc::Global;

/// Which values hold of each setting that the words ask for, of those of the line where there are none,
/// with so many ticks of room to the bounds, where room is asked for; or the first fault of the words.
/// The status is 0 where nothing is left, 1 where what is left fails, 2 where it is open.
pub fn choices_of(
    alloc: Global,
    compiled: &Compiled<'_>,
    scripts: &[Script],
    words: &[&str],
    room: Option<u32>,
) -> Result<Said, Stopped<ChooseFault>>
    requires fit { All (Fits compiled.now.line.now) scripts.now }
    requires few { length scripts.now ≤ 4096 }
    ensures said { IfOk result (λ said. (rows : List Row)
        × (rows_asked compiled.now.line.now (map (λ word. word.now) words.now) ≡ Ok rows)
        × Says (choose_answer compiled.now.line.now scripts.now rows room) said) }
    ensures denied { (why : FaultOf) → result ≡ Err (Fault why) →
        rows_asked compiled.now.line.now (map (λ word. word.now) words.now) ≡ Err why }
{
    let all = settings_of(alloc, compiled.line, words)?;
    let said = choose_table(alloc, compiled, scripts, &all.names, &all.settings, room)?;
    Ok(said)
}
