//! Schemes that trip on any received signal, as formulas: underreach permission and transfer trip.

ghost use Rattle.std.specs.Prelude.{◌≡◌, ◌<◌, IfOk, List};
ghost use Rattle.model_line.specs.Parameters.{terminal_count};
ghost use Rattle.model_plain.specs.Formulas.{tree_of};
ghost use Rattle.model_logic.specs.Logic.{underreach_pilot as underreach_pilot_tree};
ghost use Rattle.model_logic.specs.Logic.{transfer_pilot as transfer_pilot_tree};
ghost use Rattle.model_logic.specs.Tree.{Tree};

use crate::build::{and, timer};
use crate::formula::Formula;
use crate::received::any_received;
use crate::seen_elements::element_formula;
use base_memory::Memory;
use model_line::{Element, Line, Setting};
use model_logic::{Time, terminal_time};
use std::alloc::Global;

pub fn underreach_pilot(alloc: Global, line: &Line, k: u32) -> Result<Formula, Memory>
    requires { k < terminal_count line.now }
    ensures { (parts : List Tree) → IfOk result (λ f. tree_of parts f
        ≡ underreach_pilot_tree line.now k) }
{
    let ahead = element_formula(alloc, line, k, Element::Z2);
    and(alloc, ahead, any_received(alloc, line, k))
}

pub fn transfer_pilot(alloc: Global, line: &Line, k: u32) -> Result<Formula, Memory>
    requires { k < terminal_count line.now }
    ensures { (parts : List Tree) → IfOk result (λ f. tree_of parts f
        ≡ transfer_pilot_tree line.now k) }
{
    let sent = any_received(alloc, line, k);
    let security = terminal_time(line, k, Setting::TransferSecurity);
    timer(alloc, sent, security, Time::Zero)
}
