//! The gate of a formula, and the role of a gate.

ghost use Rattle.std.specs.Prelude.{◌≡◌, ◌<◌, length, IfSome};
ghost use Rattle.model_plain.specs.Formulas.{own_tree};
ghost use Rattle.draw_gates.specs.roles.Lookup.{gate_of_tree, role_by};

use crate::roles::stands::stands_for;
use model_plain::{Formula, NamedPart, Role};
use net_gates::{GateId, Net};
use run_waves::waves::the_first_tick_is_the_least;

/// The gate that stands for the tree of a formula that names no parts, if the net has one.
pub fn find_gate(net: &Net, formula: &Formula) -> Option<u32>
    ensures is { result ≡ gate_of_tree net.now.gates (own_tree formula.now) }
    ensures there { IfSome result (λ i. i < length net.now.gates) }
{
    the_first_tick_is_the_least();
    for i in 0..net.len() {
        if stands_for(net, GateId(i), formula) {
            return Some(i);
        }
    }
    None
}

/// The role of the first of these parts that a gate is.
pub fn role_of_gate(net: &Net, id: GateId, parts: &[NamedPart]) -> Option<Role>
    requires { id.0 < length net.now.gates }
    ensures { result ≡ role_by net.now.gates id.0 parts.now }
{
    for part in parts {
        if stands_for(net, id, &part.formula) {
            return Some(part.role);
        }
    }
    None
}
