//! What the interval rules say, and with them the worst choice.

ghost use Rattle.std.specs.Prelude.{◌≡◌, ◌↔◌, IfOk, IsTrue};
ghost use Rattle.model_settle.specs.Schemes.{IsOneRailedBy};
ghost use Rattle.judge_margins.specs.map.Cells.{IsCell};
ghost use Rattle.judge_map.specs.Asked.{AreKnownOf, IsAsked, box_of, many_of};
ghost use Rattle.judge_map.specs.Ruled.{known_by};

use crate::asked::Asked;
use crate::known::Known;
use crate::laws::laws_below;
use judge_margins::map::Cell;
use judge_verdict::verdict::Rule;
use model_line::Memory;
use std::alloc::Global;

/// What is known of each obligation of a cell by its rule. Where each trip of the line is one-railed,
/// some choice fails what is not held.
pub(crate) fn known_of_rules(
    alloc: Global,
    asked: &Asked<'_>,
    cell: &Cell,
    one_railed: bool,
) -> Result<Vec<Known>, Memory>
    requires asked { IsAsked asked.now }
    requires cell { IsCell asked.now.line.now asked.now.scripts.now (box_of asked.now) cell.now }
    requires one_railed { IsTrue one_railed ↔ IsOneRailedBy asked.now.line.now.scheme asked.now.line.now }
    ensures { IfOk result (λ known. AreKnownOf asked.now (many_of asked.now) known.items) }
{
    laws_below();
    let _asked = asked;
    let mut known = Vec::with_capacity(alloc, cell.rules.len())?;
    for n in 0..cell.rules.len() {
        known.push(known_of_rule(cell.rules[n], one_railed))?;
    }
    Ok(known)
}

// What a rule says of its obligation.
fn known_of_rule(rule: Rule, one_railed: bool) -> Known
    ensures { result ≡ known_by one_railed rule }
{
    match (rule, one_railed) {
        (Rule::Held, _) => Known::Held,
        (Rule::Broken, _) => Known::FailsForEvery,
        (Rule::Unknown, true) => Known::FailsForSome,
        (Rule::Unknown, false) => Known::Open,
    }
}
