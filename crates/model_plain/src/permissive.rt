//! Permission schemes, as formulas: current reversal guard, permission, and what a terminal that is
//! no weak infeed sends and trips on.

ghost use Rattle.std.specs.Prelude.{◌≡◌, ◌<◌, IfOk, List, false};
ghost use Rattle.model_plain.specs.Formulas.{tree_of, own_tree};
ghost use Rattle.model_plain.specs.Parts.{permitted_over, ahead as ahead_tree};
ghost use Rattle.model_line.specs.Parameters.{terminal_count};
ghost use Rattle.model_logic.specs.{Names.Names, Permissive.permission as permission_tree};
ghost use Rattle.model_logic.specs.{Elements.is_weak, Tree.Tree};
ghost use Rattle.model_logic.specs.Permissive.{reversal_guard as reversal_guard_tree};
ghost use Rattle.model_logic.specs.Permissive.{permissive_key as permissive_key_tree};
ghost use Rattle.model_logic.specs.Permissive.{permissive_pilot as permissive_pilot_tree};

use crate::build::{and, not, or, timer};
use crate::formula::Formula;
use crate::received::all_received;
use crate::seen_elements::element_formula;
use crate::unblocking::all_open;
use base_memory::Memory;
use model_line::{Element, Line, Scheme, Setting};
use model_logic::{is_terminal_guarded, terminal_time};
use std::alloc::Global;

#[tactic(auto, unfolding(model_logic::specs::Permissive::permission))]
pub fn permission(alloc: Global, line: &Line, k: u32) -> Result<Formula, Memory>
    requires { k < terminal_count line.now }
    ensures { (parts : List Tree) → IfOk result (λ f. tree_of parts f ≡ permission_tree line.now k) }
{
    match line.scheme {
        Scheme::Pott => all_received(alloc, line, k),
        Scheme::Dcub => all_open(alloc, line, k),
        Scheme::Putt | Scheme::Dcb | Scheme::Dtt => Ok(Formula::Const(false)),
    }
}

/// A terminal's guard against current reversal.
#[tactic(auto, unfolding(model_logic::specs::Permissive::reversal_guard, model_logic::specs::Names::Names))]
pub fn guard_formula(alloc: Global, line: &Line, k: u32) -> Result<Formula, Memory>
    requires { k < terminal_count line.now }
    ensures is { (parts : List Tree) → IfOk result (λ f. tree_of parts f
        ≡ reversal_guard_tree line.now k) }
    ensures named { IfOk result (λ f. Names line.now (own_tree f)) }
{
    if is_terminal_guarded(line, k) {
        let pickup = terminal_time(line, k, Setting::ReversalPickup);
        let dropout = terminal_time(line, k, Setting::ReversalDropout);
        let reverse = element_formula(alloc, line, k, Element::Rv);
        timer(alloc, reverse, pickup, dropout)
    } else {
        Ok(Formula::Const(false))
    }
}

/// What a terminal sees ahead, where its guard does not hold.
pub fn ahead(alloc: Global, line: &Line, k: u32) -> Result<Formula, Memory>
    requires { k < terminal_count line.now }
    ensures { (parts : List Tree) → IfOk result (λ f. tree_of parts f ≡ ahead_tree line.now k) }
{
    let zone2 = element_formula(alloc, line, k, Element::Z2);
    and(alloc, zone2, not(alloc, guard_formula(alloc, line, k)))
}

/// Zone 2 with this permission, where the guard does not hold.
pub fn permitted(
    alloc: Global,
    line: &Line,
    k: u32,
    permission: Result<Formula, Memory>,
) -> Result<Formula, Memory>
    requires { k < terminal_count line.now }
    ensures { (parts : List Tree) (t : Tree) → IfOk permission (λ f. tree_of parts f ≡ t)
        → IfOk result (λ f. tree_of parts f ≡ permitted_over line.now k t) }
{
    let zone2 = element_formula(alloc, line, k, Element::Z2);
    let permitted = and(alloc, zone2, permission);
    and(alloc, permitted, not(alloc, guard_formula(alloc, line, k)))
}

pub fn permissive_key(alloc: Global, line: &Line, k: u32) -> Result<Formula, Memory>
    requires exists { k < terminal_count line.now }
    requires strong { is_weak line.now k ≡ false }
    ensures { (parts : List Tree) → IfOk result (λ f. tree_of parts f
        ≡ permissive_key_tree line.now k (permission_tree line.now k)) }
{
    or(alloc, ahead(alloc, line, k), Ok(Formula::Const(false)))
}

pub fn permissive_pilot(alloc: Global, line: &Line, k: u32) -> Result<Formula, Memory>
    requires exists { k < terminal_count line.now }
    requires strong { is_weak line.now k ≡ false }
    ensures { (parts : List Tree) → IfOk result (λ f. tree_of parts f
        ≡ permissive_pilot_tree line.now k (permission_tree line.now k)) }
{
    let permitted = permitted(alloc, line, k, permission(alloc, line, k));
    or(alloc, permitted, Ok(Formula::Const(false)))
}
