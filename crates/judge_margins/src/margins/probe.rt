//! What is lost first with each of some ends moved outward.

ghost use Rattle.std.specs.Prelude.{◌≡◌, ◌≤◌, ◌<◌, IfOk, OnOk, length};
ghost use Rattle.judge_margins.specs.margins.Asks.{AreAsks, AreTold};
ghost use Rattle.judge_margins.specs.margins.Groups.{IsGroup};

use crate::margins::ask::Ask;
use crate::margins::group::Group;
use crate::margins::rows::{first_off, rows};
use judge_report::Lost;
use model_line::Memory;
use std::alloc::Global;

/// Of each ask which of the obligations is lost first, or none. One run serves 64 asks and all of
/// the obligations.
pub fn probe(alloc: Global, of: &Group, asks: &[Ask]) -> Result<Vec<Option<Lost>>, Memory>
    requires group { IsGroup of.now }
    requires asks { AreAsks of.now.compiled.line.now asks.now }
    ensures { IfOk result (λ told. AreTold of.now asks.now told.items (length asks.now)) }
{
    let mut told = Vec::with_capacity(alloc, asks.len())?;
    'next_block: while told.len() < asks.len() {
        tell_block(alloc, of, asks, &mut told)?;
    }
    Ok(told)
}

// Of up to 64 asks more.
fn tell_block(
    alloc: Global,
    of: &Group,
    asks: &[Ask],
    told: &mut Vec<Option<Lost>>,
) -> Result<(), Memory>
    requires group { IsGroup of.now }
    requires asks { AreAsks of.now.compiled.line.now asks.now }
    requires left { length told.old.items < length asks.now }
    requires so_far { AreTold of.now asks.now told.old.items (length told.old.items) }
    ensures more { OnOk result (length told.old.items < length told.new.items) }
    ensures within { OnOk result (length told.new.items ≤ length asks.now) }
    ensures so_far { OnOk result
        (AreTold of.now asks.now told.new.items (length told.new.items)) }
{
    let first = told.len();
    let rows = rows(alloc, of, asks, first)?;
    let lanes = (asks.len() - first).min(64);
    for lane in 0..lanes {
        told.push(first_off(of.these, &rows, lane as u32))?;
    }
    Ok(())
}
