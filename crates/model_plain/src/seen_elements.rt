//! What a terminal sees for itself, as formulas.

ghost use Rattle.std.specs.Prelude.{◌≡◌, ◌<◌, IfOk, List};
ghost use Rattle.model_plain.specs.Formulas.{tree_of, own_tree};
ghost use Rattle.model_line.specs.Parameters.{terminal_count};
ghost use Rattle.model_logic.specs.{Names.Names, Elements.seen_timed as seen_timed_tree};
ghost use Rattle.model_logic.specs.Tree.{Tree};

use crate::build::timer;
use crate::formula::Formula;
use base_memory::Memory;
use model_line::{Element, Line, Owner, Place};
use model_logic::{pickup_and_dropout, time_of};
use std::alloc::Global;

/// The formula of what a terminal sees of an element.
#[tactic(auto, unfolding(model_logic::specs::Elements::seen_timed, model_logic::specs::Names::Names))]
pub fn element_formula(
    alloc: Global,
    line: &Line,
    k: u32,
    element: Element,
) -> Result<Formula, Memory>
    requires { k < terminal_count line.now }
    ensures is { (parts : List Tree) → IfOk result (λ f. tree_of parts f
        ≡ seen_timed_tree line.now k element) }
    ensures named { IfOk result (λ f. Names line.now (own_tree f)) }
{
    let seen = Formula::Seen(Place {
        element,
        terminal: k,
    });
    match pickup_and_dropout(element) {
        Some((pickup, dropout)) => {
            let owner = Owner::Terminal(k);
            let pickup = time_of(line, owner, pickup);
            let dropout = time_of(line, owner, dropout);
            timer(alloc, Ok(seen), pickup, dropout)
        }
        None => Ok(seen),
    }
}
