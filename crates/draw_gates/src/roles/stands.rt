//! Whether a gate stands for the tree of a formula.

ghost use Rattle.std.specs.Prelude.{◌≡◌, ◌<◌, length, IfSome};
ghost use Rattle.model_logic.specs.SameTree.{same_tree};
ghost use Rattle.model_plain.specs.Formulas.{own_tree};
ghost use Rattle.net_gates.specs.Formulas.{formula_of};
ghost use Rattle.draw_gates.specs.roles.Parts.{is_one, are_two};

use crate::roles::gates::{
    both_of, denied, either_of, is_const, is_lost, is_raw, is_seen, sealed_by, timed_by,
};
use model_plain::Formula;
use net_gates::{GateId, Net};

/// Whether a gate stands for the tree of a formula that names no parts; one that it names counts as
/// never on.
#[cycle(stands)]
pub fn stands_for(net: &Net, id: GateId, formula: &Formula) -> bool
    requires { id.0 < length net.now.gates }
    ensures { result ≡ same_tree (formula_of net.now.gates id.0) (own_tree formula.now) }
{
    match formula {
        Formula::Part(_) => is_const(net, id, false),
        Formula::Const(value) => is_const(net, id, *value),
        Formula::Seen(place) => is_seen(net, id, *place),
        Formula::Loss(channel) => is_lost(net, id, *channel),
        Formula::Raw(channel) => is_raw(net, id, *channel),
        Formula::Not(x) => one_stands(net, denied(net, id), x),
        Formula::And(x, y) => both_stand(net, both_of(net, id), x, y),
        Formula::Or(x, y) => both_stand(net, either_of(net, id), x, y),
        Formula::Timer(x, pickup, dropout) => {
            one_stands(net, timed_by(net, id, *pickup, *dropout), x)
        }
        Formula::Seal(set, hold) => both_stand(net, sealed_by(net, id), set, hold),
    }
}

// Whether there is such a gate, and it stands for the tree.
#[cycle(stands)]
fn one_stands(net: &Net, gate: Option<GateId>, x: &Formula) -> bool
    requires { IfSome gate (λ a. a.0 < length net.now.gates) }
    ensures { result ≡ is_one net.now.gates (own_tree x.now) gate }
{
    match gate {
        Some(a) => stands_for(net, a, x),
        None => false,
    }
}

// Whether there are two such gates, and they stand for the trees.
#[cycle(stands)]
fn both_stand(net: &Net, gates: Option<(GateId, GateId)>, x: &Formula, y: &Formula) -> bool
    requires { IfSome gates (λ (a, b). (a.0 < length net.now.gates)
        × (b.0 < length net.now.gates)) }
    ensures { result ≡ are_two net.now.gates (own_tree x.now) (own_tree y.now) gates }
{
    match gates {
        Some((a, b)) => stands_for(net, a, x) && stands_for(net, b, y),
        None => false,
    }
}
