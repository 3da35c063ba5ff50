//! The scripts of a fault.

ghost use Rattle.std.specs.Prelude.{◌≤◌, ◌<◌, ◌+◌, IfOk, length};
ghost use Rattle.judge_verdict.specs.verdict.OneEach.{OneEach};
ghost use Rattle.call_page.specs.{Facts.AreKnown, Faults.IsCaseOf};
ghost use Rattle.call_facts.specs.Lists.{At};

use crate::known::Known;
use crate::parts::{Part, swept};
use draw_page::Case;
use draw_run::diagram::inception;
use judge_report::deadline;
use model_line::Memory;
use std::alloc::Global;

/// The scripts of a part, in order.
pub fn cases(alloc: Global, known: &Known<'_>, part: Part) -> Result<Vec<Case>, Memory>
    requires known { AreKnown known.now }
    requires within { part.start + part.count ≤ length known.now.study.now.scripts.items }
    ensures { IfOk result (λ cases. OneEach
        (λ j c. At known.now.study.now.scripts.items (part.start + j)
        (λ s. IsCaseOf known.now.study.now.line known.now.groups.now (part.start + j) s c))
        part.count cases.items) }
{
    let mut cases = Vec::new(alloc);
    for j in 0..part.count {
        let case = case(alloc, known, part.start + j)?;
        cases.push(case)?;
    }
    Ok(cases)
}

fn case(alloc: Global, known: &Known<'_>, script: usize) -> Result<Case, Memory>
    requires known { AreKnown known.now }
    requires exists { script < length known.now.study.now.scripts.items }
    ensures { IfOk result (λ c. At known.now.study.now.scripts.items script
        (λ s. IsCaseOf known.now.study.now.line known.now.groups.now script s c)) }
{
    let swept = swept(alloc, known.groups, script)?;
    let of = &known.study.scripts[script];
    let name = Vec::from_slice(alloc, of.name.bytes())?;
    Ok(Case {
        name,
        swept,
        inception: inception(of, known.study.line.horizon),
        deadline: deadline(of.kind, of.deadline),
    })
}
