//! The search.

ghost use Rattle.std.specs.Prelude.{◌≡◌, ◌≤◌, ◌<◌, IfOk};
ghost use Rattle.model_logic.specs.Choice.{Choice, IsInside};
ghost use Rattle.model_logic.specs.Histories.{History, IsLineHistory, Meets};
ghost use Rattle.model_line.specs.{Fits.Fits, Parameters.terminal_count};
ghost use Rattle.model_timing.specs.Timing.{TimingValues};
ghost use Rattle.judge_verdict.specs.verdict.Verdicts.{IsRefutation};
ghost use Rattle.judge_split.specs.{declared.node.Outcome.Outcome, Found.IsFound, Found.IsAllYes};

use crate::halves::halves;
use crate::known::laws_below;
use crate::leaf::{leaf, split};
use crate::node::{Node, Outcome};
use crate::quick::quick;
use crate::verdict::verdict_at;
use crate::widest::widest;
use judge_verdict::verdict::Verdict;
use model_line::laws::scripts_fit_whatever_the_intervals;
use model_line::{Memory, Script};
use net_gates::Compiled;
use net_gates::laws::nets_do_not_rest_on_the_intervals;
use std::alloc::Global;

/// Splits the declared box, at most `depth` splits above one another, until each part is decided:
/// at the middle of the first of its widest parameters that are no delays, the lower half first. A
/// timing that fails in a part ends the search.
pub fn search(
    alloc: Global,
    compiled: &Compiled<'_>,
    script: &Script,
    terminal: u32,
    depth: u32,
) -> Result<Outcome, Memory>
    requires fits { Fits compiled.now.line.now script.now }
    requires terminal { terminal < terminal_count compiled.now.line.now }
    requires depth { depth ≤ 8 }
    ensures found { IfOk result (λ outcome.
        IsFound compiled.now.line.now script.now terminal depth outcome) }
    // Each leaf is yes: each history of each choice inside meets the obligation.
    ensures yes { IfOk result (λ outcome. IsAllYes outcome →
        (choice : Choice) (h : History) → IsInside compiled.now.line.now choice →
        IsLineHistory compiled.now.line.now script.now choice h → Meets compiled.now.line.now
        script.now terminal h) }
    // A timing: it is inside, has no steps, and its history does not meet it.
    ensures no { IfOk result (λ outcome. (timing : TimingValues) →
        outcome ≡ Outcome.Fails timing → IsRefutation compiled.now.line.now script.now terminal
        timing) }
{
    laws_below();
    search_part(alloc, compiled, script, terminal, depth)
}

// The search over the declared box of a line.
fn search_part(
    alloc: Global,
    compiled: &Compiled<'_>,
    script: &Script,
    terminal: u32,
    depth: u32,
) -> Result<Outcome, Memory>
    requires fits { Fits compiled.now.line.now script.now }
    requires terminal { terminal < terminal_count compiled.now.line.now }
    ensures { IfOk result (λ outcome. IsFound compiled.now.line.now script.now terminal depth
        outcome) }
{
    nets_do_not_rest_on_the_intervals();
    scripts_fit_whatever_the_intervals();
    match verdict_at(alloc, compiled, script, terminal)? {
        Verdict::Yes => return Ok(Outcome::Tree(leaf(alloc, Node::Yes)?)),
        Verdict::No(timing) => return Ok(Outcome::Fails(timing)),
        Verdict::Undecided => {}
    }
    let Some(param) = widest(compiled.line) else {
        return Ok(Outcome::Tree(leaf(alloc, Node::Undecided)?));
    };
    if depth == 0 {
        return Ok(Outcome::Tree(leaf(alloc, Node::Undecided)?));
    }
    if depth >= 3 {
        if let Some(nodes) = quick(alloc, compiled, script, terminal, param, depth)? {
            return Ok(Outcome::Tree(nodes));
        }
    }
    let (lower_line, upper_line) = halves(alloc, compiled.line, param)?;
    let lower = Compiled {
        line: &lower_line,
        net: compiled.net,
    };
    let lower_nodes = match search_part(alloc, &lower, script, terminal, depth - 1)? {
        Outcome::Tree(nodes) => nodes,
        Outcome::Fails(timing) => return Ok(Outcome::Fails(timing)),
    };
    let upper = Compiled {
        line: &upper_line,
        net: compiled.net,
    };
    let upper_nodes = match search_part(alloc, &upper, script, terminal, depth - 1)? {
        Outcome::Tree(nodes) => nodes,
        Outcome::Fails(timing) => return Ok(Outcome::Fails(timing)),
    };
    let mid = compiled.line.middle(param);
    let nodes = split(alloc, param, mid, &lower_nodes, &upper_nodes)?;
    Ok(Outcome::Tree(nodes))
}
