//! The gates of a net by their kinds, and the trees of their arguments.

ghost use Rattle.std.specs.Prelude.{◌≡◌, ◌<◌, length, IfSome, Some, None, if◌then◌else◌};
ghost use Rattle.model_logic.specs.Tree.{Tree};
ghost use Rattle.model_logic.specs.Tree as tree;
ghost use Rattle.model_logic.specs.SameTree.{same_tree, same_value};
ghost use Rattle.net_gates.specs.{Formulas.formula_of, Formulas.kind_over, Gates.HasArguments};
ghost use Rattle.draw_gates.specs.roles.Parts.{is_one, are_two};

use model_line::Place;
use model_logic::Time;
use net_gates::{Gate, GateId, Net};

/// The gate of this number; its arguments are gates of the net.
pub fn gate_at(net: &Net, id: GateId) -> Gate
    requires { id.0 < length net.now.gates }
    ensures stands { formula_of net.now.gates id.0 ≡ kind_over net.now.gates result }
    ensures arguments { HasArguments (length net.now.gates) result }
{
    let _laws = net.len();
    *net.gate(id)
}

/// Whether a gate is on always, or never.
#[tactic(auto, unfolding(model_logic::specs::SameTree::same_tree))]
pub fn is_const(net: &Net, id: GateId, always: bool) -> bool
    requires { id.0 < length net.now.gates }
    ensures { result ≡ same_tree (formula_of net.now.gates id.0) (tree.Const always) }
{
    match gate_at(net, id) {
        Gate::Const(value) => is_same(value, always),
        _ => false,
    }
}

// Whether both are on, or neither.
fn is_same(one: bool, other: bool) -> bool
    ensures { result ≡ same_value one other }
{
    if one { other } else { !other }
}

/// Whether a gate is what the script shows at a place.
#[tactic(auto, unfolding(model_logic::specs::SameTree::same_tree))]
pub fn is_seen(net: &Net, id: GateId, place: Place) -> bool
    requires { id.0 < length net.now.gates }
    ensures { result ≡ same_tree (formula_of net.now.gates id.0) (tree.Seen place) }
{
    match gate_at(net, id) {
        Gate::Seen(seen) => seen == place,
        _ => false,
    }
}

/// Whether a gate is the loss of a channel.
#[tactic(auto, unfolding(model_logic::specs::SameTree::same_tree))]
pub fn is_lost(net: &Net, id: GateId, channel: u32) -> bool
    requires { id.0 < length net.now.gates }
    ensures { result ≡ same_tree (formula_of net.now.gates id.0) (tree.Loss channel) }
{
    match gate_at(net, id) {
        Gate::Loss(lost) => lost == channel,
        _ => false,
    }
}

/// Whether a gate is what arrives over a channel.
#[tactic(auto, unfolding(model_logic::specs::SameTree::same_tree))]
pub fn is_raw(net: &Net, id: GateId, channel: u32) -> bool
    requires { id.0 < length net.now.gates }
    ensures { result ≡ same_tree (formula_of net.now.gates id.0) (tree.Raw channel) }
{
    match gate_at(net, id) {
        Gate::Raw(raw) => raw == channel,
        _ => false,
    }
}

/// The gate that a gate denies.
#[tactic(auto, unfolding(model_logic::specs::SameTree::same_tree))]
pub fn denied(net: &Net, id: GateId) -> Option<GateId>
    requires { id.0 < length net.now.gates }
    ensures is { (x : Tree) →
        same_tree (formula_of net.now.gates id.0) (tree.Not x) ≡ is_one net.now.gates x result }
    ensures there { IfSome result (λ a. a.0 < length net.now.gates) }
{
    match gate_at(net, id) {
        Gate::Not(a) => Some(a),
        _ => None,
    }
}

/// The input of a timer with this pickup and dropout.
#[tactic(auto, unfolding(model_logic::specs::SameTree::same_tree))]
pub fn timed_by(net: &Net, id: GateId, pickup: Time, dropout: Time) -> Option<GateId>
    requires { id.0 < length net.now.gates }
    ensures is { (x : Tree) →
        same_tree (formula_of net.now.gates id.0) (tree.Timer x pickup dropout)
        ≡ is_one net.now.gates x result }
    ensures there { IfSome result (λ a. a.0 < length net.now.gates) }
{
    match gate_at(net, id) {
        Gate::Timer(a, p, d) => input_if(a, p == pickup && d == dropout),
        _ => None,
    }
}

// The gate, if so.
fn input_if(a: GateId, so: bool) -> Option<GateId>
    ensures { result ≡ if so then Some a else None }
{
    if so { Some(a) } else { None }
}

/// The two gates of which a gate is both.
#[tactic(auto, unfolding(model_logic::specs::SameTree::same_tree))]
pub fn both_of(net: &Net, id: GateId) -> Option<(GateId, GateId)>
    requires { id.0 < length net.now.gates }
    ensures is { (x y : Tree) →
        same_tree (formula_of net.now.gates id.0) (tree.And x y)
        ≡ are_two net.now.gates x y result }
    ensures there { IfSome result (λ (a, b). (a.0 < length net.now.gates)
        × (b.0 < length net.now.gates)) }
{
    match gate_at(net, id) {
        Gate::And(a, b) => Some((a, b)),
        _ => None,
    }
}

/// The two gates of which a gate is either.
#[tactic(auto, unfolding(model_logic::specs::SameTree::same_tree))]
pub fn either_of(net: &Net, id: GateId) -> Option<(GateId, GateId)>
    requires { id.0 < length net.now.gates }
    ensures is { (x y : Tree) →
        same_tree (formula_of net.now.gates id.0) (tree.Or x y)
        ≡ are_two net.now.gates x y result }
    ensures there { IfSome result (λ (a, b). (a.0 < length net.now.gates)
        × (b.0 < length net.now.gates)) }
{
    match gate_at(net, id) {
        Gate::Or(a, b) => Some((a, b)),
        _ => None,
    }
}

/// What sets a seal, and what holds it.
#[tactic(auto, unfolding(model_logic::specs::SameTree::same_tree))]
pub fn sealed_by(net: &Net, id: GateId) -> Option<(GateId, GateId)>
    requires { id.0 < length net.now.gates }
    ensures is { (x y : Tree) →
        same_tree (formula_of net.now.gates id.0) (tree.Seal x y)
        ≡ are_two net.now.gates x y result }
    ensures there { IfSome result (λ (a, b). (a.0 < length net.now.gates)
        × (b.0 < length net.now.gates)) }
{
    match gate_at(net, id) {
        Gate::Seal(a, b) => Some((a, b)),
        _ => None,
    }
}
