//! The margins of all times.

ghost use Rattle.std.specs.Prelude.{◌≡◌, IfOk};
ghost use Rattle.call_answer.specs.Answers.{Says};
ghost use Rattle.call_tables.specs.Margins.{margins_answer, status_with};
ghost use Rattle.call_tables.specs.Whole.{IsWhole};

use crate::slacks::slacks_text;
use call_answer::{Done, Said, Study};
use judge_margins::margins::{held_today, margins};
use judge_report::Lost;
use judge_slacks::lacks;
use model_line::Memory;
use net_gates::Compiled;
use std::alloc::Global;

/// How far each end of each interval can be moved outward, all else as declared, so that each
/// obligation that is held today is held still, and which is lost first one tick further; or how far
/// inward it has to be moved so that each obligation is held that is not, where some move of it
/// holds any. Status 2 where some obligation is not held today.
pub fn margins_table(alloc: Global, study: &Study) -> Result<Said, Memory>
    requires { IsWhole study.now }
    ensures { IfOk result
        (Says (margins_answer study.now.line study.now.scripts.items)) }
{
    let line = &study.line;
    let compiled = Compiled {
        line: &study.line,
        net: &study.net,
    };
    let scripts = study.scripts.as_slice();
    let today = held_today(alloc, &compiled, scripts)?;
    let others = today.others.as_slice();
    let ends = margins(alloc, &compiled, scripts, today.held.as_slice())?;
    let lacks = lacks(alloc, &compiled, scripts, others)?;
    let text = slacks_text(alloc, line, scripts, ends.as_slice(), lacks.as_slice())?;
    Ok(Said {
        status: status_of(others),
        text,
    })
}

fn status_of(others: &[Lost]) -> Done
    ensures { result ≡ status_with others.now }
{
    if others.is_empty() {
        Done::Good
    } else {
        Done::SomeUndecided
    }
}
