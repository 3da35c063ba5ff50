//! The parts of a terminal's program, one after another.

ghost use Rattle.std.specs.Prelude.{◌<◌, ◌+◌, ◌++◌, ◌∷◌, [], ℕ, IfOk, List};
ghost use Rattle.model_line.specs.{declared.line.Line.Line, Parameters.terminal_count};
ghost use Rattle.model_logic.specs.{Tree.Tree, Names.Names};
ghost use Rattle.model_plain.specs.Parts.{AreProgramParts, StandsOver, distance_trees};
ghost use Rattle.model_plain.specs.{Parts.local_trees, Formulas.own_tree};

use crate::formula::Formula;
use crate::permissive::guard_formula;
use crate::seen_elements::element_formula;
use base_memory::Memory;
use model_line::{Element, Line};
use std::alloc::Global;

/// One part more, which may name those before it.
#[tactic(auto, using(crate::proofs::ProgramLaws::parts_push))]
pub fn with_part(
    parts: Result<Vec<Formula>, Memory>,
    part: Result<Formula, Memory>,
) -> Result<Vec<Formula>, Memory>
    ensures { (line : Line) (trees : List Tree) (tree : Tree) (m n : ℕ)
        → IfOk parts (λ ps. AreProgramParts line trees m ps.items)
        → IfOk part (StandsOver trees tree n)
        → IfOk part (λ f. Names line (own_tree f))
        → IfOk result (λ ps. AreProgramParts line (trees ++ tree ∷ []) (m + n) ps.items) }
{
    let mut parts = parts?;
    parts.push(part?)?;
    Ok(parts)
}

/// What every terminal has: each element that it sees and its guard, whether its scheme looks at
/// them or not.
pub fn local_parts(alloc: Global, line: &Line, k: u32) -> Result<Vec<Formula>, Memory>
    requires { k < terminal_count line.now }
    ensures { IfOk result (λ ps. AreProgramParts line.now (local_trees line.now k) 13 ps.items) }
{
    let distance = distance_parts(alloc, line, k);
    let with_voltage = with_part(distance, element_formula(alloc, line, k, Element::Uv));
    let with_current = with_part(with_voltage, element_formula(alloc, line, k, Element::Cur));
    with_part(with_current, guard_formula(alloc, line, k))
}

// Its distance elements.
fn distance_parts(alloc: Global, line: &Line, k: u32) -> Result<Vec<Formula>, Memory>
    requires { k < terminal_count line.now }
    ensures { IfOk result (λ ps. AreProgramParts line.now (distance_trees line.now k) 6 ps.items) }
{
    let zone1 = with_part(
        Ok(Vec::new(alloc)),
        element_formula(alloc, line, k, Element::Z1),
    );
    let zone2 = with_part(zone1, element_formula(alloc, line, k, Element::Z2));
    with_part(zone2, element_formula(alloc, line, k, Element::Rv))
}
