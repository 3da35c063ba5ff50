//! The times of a line and their margins.

ghost use Rattle.std.specs.Prelude.{◌≡◌, ◌<◌, ◌+◌, ◌*◌, List, IfOk, Some, length, option_map};
ghost use Rattle.std.specs.Prelude.{slice_get};
ghost use Rattle.model_line.specs.Parameters.{param_count};
ghost use Rattle.judge_report.specs.declared.upper_end.Lost.{Lost as LostOf};
ghost use Rattle.judge_margins.specs.margins.Ends.{AreEnds};
ghost use Rattle.call_answer.specs.Study.{IsStudy};
ghost use Rattle.call_facts.specs.Least.{at_words as words_at};
ghost use Rattle.call_facts.specs.Times.{AreTimes, IsTimeOf};

use crate::least::at_words;
use call_answer::Study;
use draw_page::{Slack, Time};
use judge_margins::margins::{End, held_today, margins};
use model_line::{Memory, name_of_parameter};
use net_gates::Compiled;
use std::alloc::Global;

/// Each time, and how far its ends can be moved with what is held today held still.
pub fn times(alloc: Global, study: &Study) -> Result<Vec<Time>, Memory>
    requires { IsStudy study.now }
    ensures { IfOk result (λ times.
        AreTimes study.now.line study.now.scripts.items times.items) }
{
    let compiled = Compiled {
        line: &study.line,
        net: &study.net,
    };
    let scripts = study.scripts.as_slice();
    let today = held_today(alloc, &compiled, scripts)?;
    let held = today.held.as_slice();
    let ends = margins(alloc, &compiled, scripts, held)?;
    let all = ends.as_slice();
    let mut times = Vec::new(alloc);
    for i in 0..study.line.param_count() {
        let time = time(alloc, study, all, i)?;
        times.push(time)?;
    }
    Ok(times)
}

fn time(alloc: Global, study: &Study, ends: &[End], i: u32) -> Result<Time, Memory>
    requires param { i < param_count study.now.line }
    requires ends { length ends.now ≡ 2 * param_count study.now.line }
    ensures { IfOk result (λ time. (held : List LostOf) →
        AreEnds study.now.line study.now.scripts.items held (length held) ends.now →
        IsTimeOf study.now.line study.now.scripts.items held i time) }
{
    let name = Vec::from_slice(alloc, name_of_parameter(&study.line, i))?;
    let upper = end_at(ends, 2 * i as usize);
    let lower = end_at(ends, 2 * i as usize + 1);
    let above = slack(alloc, study, upper)?;
    let below = slack(alloc, study, lower)?;
    Ok(Time {
        name,
        low: study.line.least(i),
        high: study.line.greatest(i),
        above,
        below,
    })
}

fn end_at(ends: &[End], place: usize) -> End
    requires { place < length ends.now }
    ensures { slice_get ends.now place ≡ Some result }
{
    ends[place]
}

fn slack(alloc: Global, study: &Study, end: End) -> Result<Slack, Memory>
    ensures ticks { IfOk result (λ slack. slack.ticks ≡ end.slack) }
    ensures lost { IfOk result (λ slack. option_map (λ words. words.items) slack.lost
        ≡ option_map
        (λ o. words_at study.now.line study.now.scripts.items o.script o.terminal)
        end.lost) }
{
    let lost = match end.lost {
        Some(o) => {
            let scripts = study.scripts.as_slice();
            Some(at_words(alloc, &study.line, scripts, o.script, o.terminal)?)
        }
        None => None,
    };
    Ok(Slack {
        ticks: end.slack,
        lost,
    })
}
