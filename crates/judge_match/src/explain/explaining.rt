//! The answer.

ghost use Rattle.std.specs.Prelude.{ℕ, IfOk};
ghost use Rattle.model_line.specs.{declared.line.Line.Line, declared.script.Script.Script};
ghost use Rattle.model_logic.specs.Histories.{History};
ghost use Rattle.judge_match.specs.matching.Seen.{AreSeen, seen_history};
ghost use Rattle.judge_match.specs.explain.Answers.{IsExplanation};
ghost use Rattle.judge_match.specs.explain.Asked.{IsQuestion, recorded_of};
ghost use Rattle.judge_match.specs.explain.Found.{AreNodesOver, IsExplaining};
ghost use Rattle.judge_match.specs.explain.Parts.{declared_part as declared_part_of};

use crate::explain::answer::Explanation;
use crate::explain::budget::Budget;
use crate::explain::guess::guessed;
use crate::explain::laws::excluded_trees_explain_nothing;
use crate::explain::parts::declared_part;
use crate::explain::play::rows;
use crate::explain::question::Question;
use crate::explain::search::{Found, search_part};
use crate::explain::tree::PartNode;
use crate::matching::Seen;
use model_line::{Line, Memory, Script};
use model_timing::Timing;
use net_gates::Compiled;
use std::alloc::Global;

/// How many cuts stand above one another at most.
const DEPTH: u32 = 1024;

/// Whether a timing inside the declared intervals, without steps, explains a record of a script:
/// its play has the same changes, each at most so many ticks away. After so many analyses of boxes
/// and timings it is left open.
pub fn explain(
    alloc: Global,
    compiled: &Compiled<'_>,
    script: &Script,
    seen: &Seen,
    within: u32,
    analyses: u32,
) -> Result<Explanation, Memory>
    requires seen { AreSeen compiled.now.line.now seen.now }
    ensures { IfOk result
        (IsExplanation compiled.now.line.now script.now within (seen_history seen.now)) }
{
    let q = Question::new(alloc, compiled, script, seen, within)?;
    let mut budget = Budget::new(analyses);
    if let Some(timing) = guessed(alloc, &q, &mut budget)? {
        return explained(alloc, &q, timing);
    }
    let part = declared_part(alloc, compiled.line)?;
    let plan = Vec::new(alloc);
    match search_part(alloc, &q, &part, plan, DEPTH, &mut budget)? {
        Found::Explained(timing) => explained(alloc, &q, timing),
        Found::Excluded(nodes) => Ok(impossible(nodes)),
        Found::Open => Ok(Explanation::Open),
    }
}

// The answer where a timing explains the record.
fn explained(alloc: Global, q: &Question, timing: Timing) -> Result<Explanation, Memory>
    requires question { IsQuestion q.now }
    requires explains { IsExplaining q.now.compiled.line.now q.now.script.now q.now.within
        (recorded_of q.now) timing }
    ensures { IfOk result (IsExplanation q.now.compiled.line.now q.now.script.now q.now.within
        (recorded_of q.now)) }
{
    let rows = rows(alloc, q, &timing)?;
    Ok(Explanation::Explained { timing, rows })
}

// The answer where a tree over the declared intervals is excluded. It has a part for each node but
// those that part, which are one less.
fn impossible(nodes: Vec<PartNode>) -> Explanation
    ensures { (line : Line) (script : Script) (within : ℕ) (recorded : History) →
        AreNodesOver line script within recorded (declared_part_of line) nodes.items →
        IsExplanation line script within recorded result }
{
    excluded_trees_explain_nothing();
    let parts = nodes.len() / 2 + 1;
    Explanation::Impossible { nodes, parts }
}
