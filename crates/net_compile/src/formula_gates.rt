//! The gates of a formula.

ghost use Rattle.std.specs.Prelude.{◌<◌, ◌≤◌, ◌+◌, false, length, IfOk};
ghost use Rattle.model_plain.specs.Formulas.{operations, own_tree, part_at, tree_of};
ghost use Rattle.model_logic.specs.Tree.{And, Const};
ghost use Rattle.net_gates.specs.{Formulas.Stands, NetOf.AreGatesOf};
ghost use Rattle.net_compile.specs.Growing.{Extends};
ghost use Rattle.net_gates.specs.Formulas.{trees_of};

use crate::builder::NetBuilder;
use model_line::Memory;
use model_plain::Formula;
use net_gates::{Gate, GateId};

/// The gate of a formula over parts that have these gates. It stands for the formula's tree; what it
/// is over comes before it, and gates that stand already are taken.
#[tactic(auto, unfolding(model_logic::specs::Names::Names))]
#[cycle(gates)]
pub fn compile_formula(
    net: &mut NetBuilder,
    parts: &[GateId],
    formula: &Formula,
) -> Result<GateId, Memory>
    requires room { length net.old + operations (own_tree formula.now) ≤ 512 }
    requires parts { AreGatesOf parts.now (length net.old) }
    ensures adds { Extends (own_tree formula.now) net.old net.new }
    ensures made { IfOk result (λ id.
        Stands net.new id.0 (tree_of (trees_of net.old parts.now) formula.now)) }
{
    match formula {
        Formula::Part(part) => part_gate(net, parts, *part),
        Formula::Const(value) => net.add(Gate::Const(*value)),
        Formula::Seen(place) => net.add(Gate::Seen(*place)),
        Formula::Loss(channel) => net.add(Gate::Loss(*channel)),
        Formula::Raw(channel) => net.add(Gate::Raw(*channel)),
        Formula::Not(x) => {
            let x = compile_formula(net, parts, x)?;
            net.add(Gate::Not(x))
        }
        Formula::And(x, y) => {
            let (x, y) = both(net, parts, x, y)?;
            net.add(Gate::And(x, y))
        }
        Formula::Or(x, y) => {
            let (x, y) = both(net, parts, x, y)?;
            net.add(Gate::Or(x, y))
        }
        Formula::Timer(x, pickup, dropout) => {
            let x = compile_formula(net, parts, x)?;
            net.add(Gate::Timer(x, *pickup, *dropout))
        }
        Formula::Seal(set, hold) => {
            let (set, hold) = both(net, parts, set, hold)?;
            net.add(Gate::Seal(set, hold))
        }
    }
}

// The gates of two formulas.
#[tactic(auto, unfolding(model_logic::specs::Names::Names))]
#[cycle(gates)]
fn both(
    net: &mut NetBuilder,
    parts: &[GateId],
    x: &Formula,
    y: &Formula,
) -> Result<(GateId, GateId), Memory>
    requires room { length net.old + operations (own_tree x.now) + operations (own_tree y.now) ≤ 512 }
    requires parts { AreGatesOf parts.now (length net.old) }
    ensures adds { Extends (And (own_tree x.now) (own_tree y.now)) net.old net.new }
    ensures few { length net.new
        ≤ length net.old + operations (own_tree x.now) + operations (own_tree y.now) }
    ensures first { IfOk result (λ ids.
        Stands net.new ids.0.0 (tree_of (trees_of net.old parts.now) x.now)) }
    ensures second { IfOk result (λ ids.
        Stands net.new ids.1.0 (tree_of (trees_of net.old parts.now) y.now)) }
{
    let first = compile_formula(net, parts, x)?;
    let second = compile_formula(net, parts, y)?;
    Ok((first, second))
}

// The gate of a part; one that is not there is never on.
fn part_gate(net: &mut NetBuilder, parts: &[GateId], part: u32) -> Result<GateId, Memory>
    requires room { length net.old < 512 }
    requires parts { AreGatesOf parts.now (length net.old) }
    ensures adds { Extends (Const false) net.old net.new }
    ensures made { IfOk result (λ id.
        Stands net.new id.0 (part_at (trees_of net.old parts.now) part)) }
{
    if (part as usize) < parts.len() {
        Ok(parts[part as usize])
    } else {
        net.add(Gate::Const(false))
    }
}
