//! A weak infeed in permission schemes: parts that its key and its trip both name, and the two over them.

ghost use Rattle.std.specs.Prelude.{◌≡◌, ◌<◌, IfOk, List, true};
ghost use Rattle.model_line.specs.Parameters.{terminal_count};
ghost use Rattle.model_logic.specs.{Tree.Tree, Permissive.quiet as quiet_tree};
ghost use Rattle.model_logic.specs.{Elements.is_weak, Permissive.echo as echo_tree};
ghost use Rattle.model_logic.specs.Permissive.{permission as permission_tree};
ghost use Rattle.model_plain.specs.Formulas.{tree_of, part_at};
ghost use Rattle.model_plain.specs.Parts.{wanted_over, echo_over, weak_key_over, weak_pilot_over};

use crate::build::{and, not, or, timer};
use crate::formula::Formula;
use crate::permissive::{permission, permitted};
use crate::seen_elements::element_formula;
use base_memory::Memory;
use model_line::{Element, Line, Setting};
use model_logic::{Time, terminal_time};
use std::alloc::Global;

// The numbers of what a weak terminal sees ahead, of its permission, and of whether it wants to
// echo, behind its elements and its guard.
const AHEAD: u32 = 6;

const PERMISSION: u32 = 7;

const WANTED: u32 = 8;

fn quiet(alloc: Global, line: &Line, k: u32) -> Result<Formula, Memory>
    requires { k < terminal_count line.now }
    ensures { (parts : List Tree) → IfOk result (λ f. tree_of parts f ≡ quiet_tree line.now k) }
{
    let zone2 = element_formula(alloc, line, k, Element::Z2);
    let fault = or(alloc, zone2, element_formula(alloc, line, k, Element::Rv));
    let block = terminal_time(line, k, Setting::EchoBlock);
    not(alloc, timer(alloc, fault, Time::Zero, block))
}

/// Whether it wants to echo.
pub fn wanted(alloc: Global, line: &Line, k: u32) -> Result<Formula, Memory>
    requires { k < terminal_count line.now }
    ensures { (parts : List Tree) → IfOk result (λ f. tree_of parts f
        ≡ wanted_over line.now k (part_at parts 7)) }
{
    wanted_with(alloc, line, k, Ok(Formula::Part(PERMISSION)))
}

// Whether it wants to with this permission.
fn wanted_with(
    alloc: Global,
    line: &Line,
    k: u32,
    permission: Result<Formula, Memory>,
) -> Result<Formula, Memory>
    requires { k < terminal_count line.now }
    ensures { (parts : List Tree) (t : Tree) → IfOk permission (λ f. tree_of parts f ≡ t)
        → IfOk result (λ f. tree_of parts f ≡ wanted_over line.now k t) }
{
    let permitted = and(alloc, permission, quiet(alloc, line, k));
    let pickup = terminal_time(line, k, Setting::EchoPickup);
    timer(alloc, permitted, pickup, Time::Zero)
}

// One pulse of what it wants, which is given twice.
fn pulsed(
    alloc: Global,
    line: &Line,
    k: u32,
    wanted: Result<Formula, Memory>,
    again: Result<Formula, Memory>,
) -> Result<Formula, Memory>
    requires { k < terminal_count line.now }
    ensures { (parts : List Tree) (t : Tree) → IfOk wanted (λ f. tree_of parts f ≡ t)
        → IfOk again (λ f. tree_of parts f ≡ t)
        → IfOk result (λ f. tree_of parts f ≡ echo_over line.now k t) }
{
    let pulse = terminal_time(line, k, Setting::EchoPulse);
    let over = timer(alloc, again, pulse, Time::Zero);
    and(alloc, wanted, not(alloc, over))
}

/// Its echo, which names no parts.
pub fn echo(alloc: Global, line: &Line, k: u32) -> Result<Formula, Memory>
    requires exists { k < terminal_count line.now }
    requires weak { is_weak line.now k ≡ true }
    ensures { (parts : List Tree) → IfOk result (λ f. tree_of parts f
        ≡ echo_tree line.now k (permission_tree line.now k)) }
{
    let wanted = wanted_with(alloc, line, k, permission(alloc, line, k));
    let again = wanted_with(alloc, line, k, permission(alloc, line, k));
    pulsed(alloc, line, k, wanted, again)
}

/// What it sends.
pub fn weak_key(alloc: Global, line: &Line, k: u32) -> Result<Formula, Memory>
    requires { k < terminal_count line.now }
    ensures { (parts : List Tree) → IfOk result (λ f. tree_of parts f
        ≡ weak_key_over line.now k (part_at parts 6) (part_at parts 8)) }
{
    let (wanted, again) = (Ok(Formula::Part(WANTED)), Ok(Formula::Part(WANTED)));
    let echo = pulsed(alloc, line, k, wanted, again);
    or(alloc, Ok(Formula::Part(AHEAD)), echo)
}

/// What its pilot scheme trips on.
pub fn weak_pilot(alloc: Global, line: &Line, k: u32) -> Result<Formula, Memory>
    requires { k < terminal_count line.now }
    ensures { (parts : List Tree) → IfOk result (λ f. tree_of parts f
        ≡ weak_pilot_over line.now k (part_at parts 7) (part_at parts 8)) }
{
    let permitted = permitted(alloc, line, k, Ok(Formula::Part(PERMISSION)));
    let undervoltage = element_formula(alloc, line, k, Element::Uv);
    let infeed = and(alloc, Ok(Formula::Part(WANTED)), undervoltage);
    or(alloc, permitted, infeed)
}
