//! The blocking scheme, as formulas.

ghost use Rattle.std.specs.Prelude.{◌≡◌, ◌<◌, IfOk, List};
ghost use Rattle.model_line.specs.Parameters.{terminal_count};
ghost use Rattle.model_plain.specs.Formulas.{tree_of};
ghost use Rattle.model_logic.specs.Logic.{blocking_key as blocking_key_tree};
ghost use Rattle.model_logic.specs.Logic.{blocking_pilot as blocking_pilot_tree};
ghost use Rattle.model_logic.specs.Tree.{Tree};
ghost use Rattle.model_plain.specs.Roles.{coordinated as coordinated_tree};

use crate::build::{and, not, timer};
use crate::formula::Formula;
use crate::received::any_received;
use crate::seen_elements::element_formula;
use base_memory::Memory;
use model_line::{Element, Line, Setting};
use model_logic::{Time, terminal_time};
use std::alloc::Global;

pub fn blocking_key(alloc: Global, line: &Line, k: u32) -> Result<Formula, Memory>
    requires { k < terminal_count line.now }
    ensures { (parts : List Tree) → IfOk result (λ f. tree_of parts f
        ≡ blocking_key_tree line.now k) }
{
    let zone2 = element_formula(alloc, line, k, Element::Z2);
    let reverse = element_formula(alloc, line, k, Element::Rv);
    let behind = and(alloc, reverse, not(alloc, zone2));
    let carry = terminal_time(line, k, Setting::BlockCarry);
    timer(alloc, behind, Time::Zero, carry)
}

pub fn blocking_pilot(alloc: Global, line: &Line, k: u32) -> Result<Formula, Memory>
    requires { k < terminal_count line.now }
    ensures { (parts : List Tree) → IfOk result (λ f. tree_of parts f
        ≡ blocking_pilot_tree line.now k) }
{
    let waited = coordinated(alloc, line, k);
    let blocked = any_received(alloc, line, k);
    and(alloc, waited, not(alloc, blocked))
}

/// Zone 2 that has waited for a blocking signal.
pub fn coordinated(alloc: Global, line: &Line, k: u32) -> Result<Formula, Memory>
    requires { k < terminal_count line.now }
    ensures { (parts : List Tree) → IfOk result (λ f. tree_of parts f
        ≡ coordinated_tree line.now k) }
{
    let coordination = terminal_time(line, k, Setting::BlockCoord);
    let zone2 = element_formula(alloc, line, k, Element::Z2);
    timer(alloc, zone2, coordination, Time::Zero)
}
