//! What the command says.

ghost use Rattle.std.specs.Prelude.{◌≡◌, Err, Ok, IfOk, List, map};
ghost use Rattle.call_answer.specs.Answers.{Says};
ghost use Rattle.call_choose.specs.{Answers.choose_answer, Rows.Row};
ghost use Rattle.call_work.specs.map.Mapped.{IsMapped};
ghost use Rattle.call_work.specs.choose.Asked.{chosen_rows, denial_by as denial_of};
ghost use Rattle.call_work.specs.declared.choose.denial.ChooseDenial.{ChooseDenial as DenialOf};
ghost use Rattle.base_memory.specs.declared.stopped.Stopped.TheVariants.{Fault};

use crate::choose::denial::{ChooseDenial, word_at};
use crate::load::nearest_parameter;
use base_memory::{Memory, Stopped};
use call_answer::{Said, Study};
use call_ask::ChooseAsk;
use call_choose::{ChooseFault, choices_of, name_in_list};
use file_study::times::names_of;
use model_line::Line;
use std::alloc::Global;

/// Which values hold of each setting that the words ask for, as records. The status is 0 where nothing
/// is left, 1 where what is left fails, 2 where it is open.
pub fn choose_of(
    alloc: Global,
    study: &Study,
    ask: &ChooseAsk<'_>,
) -> Result<Said, Stopped<ChooseDenial>>
    requires { IsMapped study.now }
    ensures said { IfOk result (λ said. (rows : List Row)
        × (chosen_rows study.now.line (map (λ word. word.now) ask.now.settings.now) ≡ Ok rows)
        × Says (choose_answer study.now.line study.now.scripts.items rows ask.now.room) said) }
    ensures denied { (why : DenialOf) → result ≡ Err (Fault why) →
        chosen_rows study.now.line (map (λ word. word.now) ask.now.settings.now) ≡ Err why }
{
    match choices_of(
        alloc,
        &study.compiled(),
        study.scripts.as_slice(),
        ask.settings,
        ask.room,
    ) {
        Ok(said) => Ok(said),
        Err(Stopped::Fault(why)) => {
            let denial = denial_by(alloc, &study.line, ask.settings, why)?;
            Err(Stopped::Fault(denial))
        }
        Err(Stopped::Memory) => Err(Stopped::Memory),
    }
}

// The fault with the nearest parameter, where one is unknown.
fn denial_by(
    alloc: Global,
    line: &Line,
    words: &[&str],
    why: ChooseFault,
) -> Result<ChooseDenial, Memory>
    ensures { IfOk result (λ denial.
        denial ≡ denial_of line.now (map (λ word. word.now) words.now) why) }
{
    match why {
        ChooseFault::Unknown { place, number } => {
            let names = names_of(word_at(words, place));
            let name = name_in_list(names, number.saturating_sub(1));
            let near = nearest_parameter(alloc, line, name)?;
            Ok(ChooseDenial::Unknown {
                place,
                number,
                near,
            })
        }
        ChooseFault::Delay { place, name } => Ok(ChooseDenial::Delay { place, name }),
    }
}
