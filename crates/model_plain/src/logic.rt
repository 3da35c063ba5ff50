//! What each terminal does, by the line's scheme.

ghost use Rattle.std.specs.Prelude.{◌≡◌, ◌≤◌, ◌<◌, ◌+◌, ℕ, IfOk, List, true, false};
ghost use Rattle.model_line.specs.Parameters.{terminal_count};
ghost use Rattle.model_logic.specs.{Elements.is_weak, Tree.Tree};
ghost use Rattle.model_logic.specs.Logic.{key_by, pilot_by};
ghost use Rattle.model_logic.specs.Permissive.{permissive_key as permissive_key_tree};
ghost use Rattle.model_logic.specs.Permissive.{permissive_pilot as permissive_pilot_tree};
ghost use Rattle.model_logic.specs.Permissive.{permission as permission_tree};
ghost use Rattle.model_plain.specs.Formulas.{tree_of, IsProgramOf};
ghost use Rattle.model_plain.specs.Parts.{AreProgramParts, IsKeyTree, IsPilotTree, StandsAlways};
ghost use Rattle.model_plain.specs.Parts.{StandsOver, set_over, trip_over};

use crate::blocking::{blocking_key, blocking_pilot};
use crate::build::{or, seal};
use crate::formula::{Formula, Program};
use crate::parts::{local_parts, with_part};
use crate::permissive::{ahead, permission, permissive_key, permissive_pilot};
use crate::seen_elements::element_formula;
use crate::transfer::{transfer_pilot, underreach_pilot};
use crate::weak::{wanted, weak_key, weak_pilot};
use base_memory::Memory;
use model_line::{Element, Line, Scheme};
use model_logic::is_terminal_weak;
use model_logic::laws::trees_name_the_line;
use std::alloc::Global;

/// The program of a terminal. Its first parts are the elements that the terminal sees and its
/// guard, whether its scheme looks at them or not.
#[tactic(auto, unfolding(model_logic::specs::Permissive::permission))]
pub fn terminal_program(alloc: Global, line: &Line, terminal: u32) -> Result<Program, Memory>
    requires { terminal < terminal_count line.now }
    ensures { IfOk result (IsProgramOf line.now terminal) }
{
    match line.scheme {
        Scheme::Pott | Scheme::Dcub => permissive_program(alloc, line, terminal),
        Scheme::Putt => {
            let key = element_formula(alloc, line, terminal, Element::Z1);
            closed_program(
                alloc,
                line,
                terminal,
                key,
                underreach_pilot(alloc, line, terminal),
            )
        }
        Scheme::Dtt => {
            let key = element_formula(alloc, line, terminal, Element::Z1);
            closed_program(
                alloc,
                line,
                terminal,
                key,
                transfer_pilot(alloc, line, terminal),
            )
        }
        Scheme::Dcb => {
            let key = blocking_key(alloc, line, terminal);
            closed_program(
                alloc,
                line,
                terminal,
                key,
                blocking_pilot(alloc, line, terminal),
            )
        }
    }
}

// In permission schemes.
fn permissive_program(alloc: Global, line: &Line, k: u32) -> Result<Program, Memory>
    requires exists { k < terminal_count line.now }
    requires key { key_by line.now.scheme line.now k
        ≡ permissive_key_tree line.now k (permission_tree line.now k) }
    requires pilot { pilot_by line.now.scheme line.now k
        ≡ permissive_pilot_tree line.now k (permission_tree line.now k) }
    ensures { IfOk result (IsProgramOf line.now k) }
{
    if is_terminal_weak(line, k) {
        weak_program(alloc, line, k)
    } else {
        let key = permissive_key(alloc, line, k);
        closed_program(alloc, line, k, key, permissive_pilot(alloc, line, k))
    }
}

// Of a weak terminal: what it sees ahead, its permission and whether it wants to echo are named.
fn weak_program(alloc: Global, line: &Line, k: u32) -> Result<Program, Memory>
    requires exists { k < terminal_count line.now }
    requires weak { is_weak line.now k ≡ true }
    requires key { key_by line.now.scheme line.now k
        ≡ permissive_key_tree line.now k (permission_tree line.now k) }
    requires pilot { pilot_by line.now.scheme line.now k
        ≡ permissive_pilot_tree line.now k (permission_tree line.now k) }
    ensures { IfOk result (IsProgramOf line.now k) }
{
    trees_name_the_line();
    let with_ahead = with_part(local_parts(alloc, line, k), ahead(alloc, line, k));
    let with_permission = with_part(with_ahead, permission(alloc, line, k));
    let parts = with_part(with_permission, wanted(alloc, line, k));
    let key = weak_key(alloc, line, k);
    program(alloc, line, k, parts, key, weak_pilot(alloc, line, k))
}

// Of a key and a pilot scheme that name no parts.
fn closed_program(
    alloc: Global,
    line: &Line,
    k: u32,
    key: Result<Formula, Memory>,
    pilot: Result<Formula, Memory>,
) -> Result<Program, Memory>
    requires { k < terminal_count line.now }
    ensures { (sent trips : Tree) → IsKeyTree line.now k sent → IsPilotTree line.now k trips
        → StandsAlways sent key → StandsAlways trips pilot → IfOk result (IsProgramOf line.now k) }
{
    program(alloc, line, k, local_parts(alloc, line, k), key, pilot)
}

// Of parts, and a key and a pilot scheme over them.
fn program(
    alloc: Global,
    line: &Line,
    k: u32,
    parts: Result<Vec<Formula>, Memory>,
    key: Result<Formula, Memory>,
    pilot: Result<Formula, Memory>,
) -> Result<Program, Memory>
    requires { k < terminal_count line.now }
    ensures { (trees : List Tree) (l m n : ℕ) → l + m + n ≤ 163
        → IfOk parts (λ ps. AreProgramParts line.now trees l ps.items)
        → IfOk key (StandsOver trees (key_by line.now.scheme line.now k) m)
        → IfOk pilot (StandsOver trees (pilot_by line.now.scheme line.now k) n)
        → IfOk result (IsProgramOf line.now k) }
{
    trees_name_the_line();
    let trip = trip(alloc, line, k, pilot);
    Ok(Program {
        parts: parts?,
        key: key?,
        trip: trip?,
    })
}

// What trips a terminal, over what its pilot scheme trips on.
fn trip(
    alloc: Global,
    line: &Line,
    k: u32,
    pilot: Result<Formula, Memory>,
) -> Result<Formula, Memory>
    requires { k < terminal_count line.now }
    ensures { (parts : List Tree) (t : Tree) → IfOk pilot (λ f. tree_of parts f ≡ t)
        → IfOk result (λ f. tree_of parts f ≡ trip_over line.now k t) }
{
    let set = set(alloc, line, k, pilot);
    seal(alloc, set, element_formula(alloc, line, k, Element::Cur))
}

// What sets the trip.
fn set(
    alloc: Global,
    line: &Line,
    k: u32,
    pilot: Result<Formula, Memory>,
) -> Result<Formula, Memory>
    requires { k < terminal_count line.now }
    ensures { (parts : List Tree) (t : Tree) → IfOk pilot (λ f. tree_of parts f ≡ t)
        → IfOk result (λ f. tree_of parts f ≡ set_over line.now k t) }
{
    if line.zone1_trip {
        or(alloc, pilot, element_formula(alloc, line, k, Element::Z1))
    } else {
        pilot
    }
}
