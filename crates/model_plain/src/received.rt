//! What a terminal receives from the others, as formulas.

ghost use Rattle.std.specs.Prelude.{◌≡◌, ◌<◌, IfOk, List};
ghost use Rattle.model_line.specs.Parameters.{terminal_count};
ghost use Rattle.model_plain.specs.{Formulas.tree_of, Parts.IsClosed};
ghost use Rattle.model_logic.specs.Received.{received as received_tree};
ghost use Rattle.model_logic.specs.Received.{any_received as any_received_tree};
ghost use Rattle.model_logic.specs.Received.{all_received as all_received_tree};
ghost use Rattle.model_logic.specs.Tree.{Tree};

use crate::build::{and, not};
use crate::formula::Formula;
use crate::others::all_others;
use base_memory::Memory;
use model_line::Line;
use model_logic::{Join, channel_to};
use std::alloc::Global;

pub fn received(alloc: Global, line: &Line, k: u32, j: u32) -> Result<Formula, Memory>
    ensures { IfOk result (IsClosed (received_tree line.now k j)) }
{
    let channel = channel_to(line, k, j);
    let safe = not(alloc, Ok(Formula::Loss(channel)));
    and(alloc, Ok(Formula::Raw(channel)), safe)
}

#[tactic(auto, unfolding(model_logic::specs::Received::any_received))]
pub fn any_received(alloc: Global, line: &Line, k: u32) -> Result<Formula, Memory>
    requires { k < terminal_count line.now }
    ensures { (parts : List Tree) → IfOk result (λ f. tree_of parts f
        ≡ any_received_tree line.now k) }
{
    all_others(alloc, line, k, Join::Or, |j| received(alloc, line, k, j))
}

#[tactic(auto, unfolding(model_logic::specs::Received::all_received))]
pub fn all_received(alloc: Global, line: &Line, k: u32) -> Result<Formula, Memory>
    requires { k < terminal_count line.now }
    ensures { (parts : List Tree) → IfOk result (λ f. tree_of parts f
        ≡ all_received_tree line.now k) }
{
    all_others(alloc, line, k, Join::And, |j| received(alloc, line, k, j))
}
