//! The formulas of all terminals but one, joined.

ghost use Rattle.std.specs.Prelude.{◌≡◌, ◌≢◌, ℕ, ◌<◌, IfOk, List, Ok, option_map};
ghost use Rattle.model_line.specs.Parameters.{terminal_count};
ghost use Rattle.model_logic.specs.Tree.{Tree};
ghost use Rattle.model_plain.specs.{Formulas.tree_of, Parts.IsClosed};
ghost use Rattle.model_logic.specs.Received.{join_of, joined as joined_trees};
ghost use Rattle.model_logic.specs.Received.{all_others as all_other_trees};

use crate::build::{and, or};
use crate::formula::Formula;
use base_memory::Memory;
use model_line::Line;
use model_logic::Join;
use std::alloc::Global;

/// The part of each terminal but `k`, joined from the left in line order.
#[tactic(auto, unfolding(model_logic::specs::Received::all_others))]
pub fn all_others<P>(
    alloc: Global,
    line: &Line,
    k: u32,
    join: Join,
    part: P,
) -> Result<Formula, Memory>
where
    P: Fn(u32) -> Result<Formula, Memory>,
    requires { (j : ℕ) → j < terminal_count line.now → j ≢ k → P.pre part j }
    ensures { (parts : List Tree) (tree : ℕ → Tree)
        → ((j : ℕ) (f : Formula) → j < terminal_count line.now → j ≢ k → P.post part j (Ok f)
        → IsClosed (tree j) f)
        → IfOk result (λ f. tree_of parts f ≡ all_other_trees (join_of join) tree line.now k) }
{
    let mut all = None;
    for j in 0..line.terminals.len() as u32 {
        if j != k {
            all = Some(joined(alloc, join, all, part(j))?);
        }
    }
    Ok(all.unwrap_or(Formula::Const(false)))
}

// A formula joined on the right of those before it.
fn joined(
    alloc: Global,
    join: Join,
    before: Option<Formula>,
    next: Result<Formula, Memory>,
) -> Result<Formula, Memory>
    ensures { (parts : List Tree) (t : Tree) → IfOk next (λ f. tree_of parts f ≡ t)
        → IfOk result (λ f. tree_of parts f
        ≡ joined_trees (join_of join) (option_map (tree_of parts) before) t) }
{
    match before {
        None => next,
        Some(before) => match join {
            Join::And => and(alloc, Ok(before), next),
            Join::Or => or(alloc, Ok(before), next),
        },
    }
}
