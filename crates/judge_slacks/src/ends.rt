//! What each end lacks.

ghost use Rattle.std.specs.Prelude.{◌≡◌, ◌≤◌, ◌<◌, ◌+◌, ◌*◌, ◌++◌, ℕ, List, IfOk, OnOk, Some, length, slice_get};
ghost use Rattle.std.specs.List.{All};
ghost use Rattle.model_line.specs.{Fits.Fits, Parameters.param_count};
ghost use Rattle.judge_margins.specs.margins.Widened.{param_at as param_of, side_at as side_of};
ghost use Rattle.judge_slacks.specs.Lacks.{AreDeep, AreLacks, AreNeeds, AreOff, IsLack, IsNeedAt, IsShort};
ghost use Rattle.judge_slacks.specs.Lacks.{left_of as left_among, need_with};
ghost use Rattle.judge_slacks.specs.declared.lack.Need.{Need as NeedOf};

use crate::asked::Asked;
use crate::known::laws_below;
use crate::lack::{Lack, Need, Short};
use crate::least::least_move;
use judge_margins::margins::Side;
use judge_report::Lost;
use model_line::{Memory, Script};
use net_gates::Compiled;
use std::alloc::Global;

/// The parameter and the side of an end by its place: both ends of each parameter in order, above and
/// then below.
pub fn end_at(place: usize) -> (u32, Side)
    requires { place ≤ 126 }
    ensures param { result.0 ≡ param_of place }
    ensures side { result.1 ≡ side_of place }
{
    let side = if place % 2 == 0 {
        Side::Above
    } else {
        Side::Below
    };
    ((place / 2) as u32, side)
}

/// Both ends of each parameter, in order: by how much each has to be moved inward, all else as
/// declared, so that those of these obligations are held that some move of it holds, none of which is
/// held over the declared intervals.
pub fn lacks(
    alloc: Global,
    compiled: &Compiled<'_>,
    scripts: &[Script],
    others: &[Lost],
) -> Result<Vec<Lack>, Memory>
    requires fit { All (Fits compiled.now.line.now) scripts.now }
    requires off { AreOff compiled.now.line.now scripts.now others.now }
    ensures lacks { IfOk result (λ lacks.
        AreLacks compiled.now.line.now scripts.now others.now lacks.items) }
    // Each end can be moved by what it is short of.
    ensures deep { IfOk result (λ lacks. AreDeep compiled.now.line.now lacks.items) }
{
    laws_below();
    let mut lacks = Vec::new(alloc);
    for place in 0..2 * compiled.line.param_count() as usize {
        let lack = lack_at(alloc, compiled, scripts, others, place)?;
        lacks.push(lack)?;
    }
    Ok(lacks)
}

// What the end at a place lacks.
fn lack_at(
    alloc: Global,
    compiled: &Compiled<'_>,
    scripts: &[Script],
    others: &[Lost],
    place: usize,
) -> Result<Lack, Memory>
    requires fit { All (Fits compiled.now.line.now) scripts.now }
    requires off { AreOff compiled.now.line.now scripts.now others.now }
    requires place { place < 2 * param_count compiled.now.line.now }
    ensures { IfOk result (λ lack. IsLack compiled.now.line.now scripts.now others.now
        (param_of place) (side_of place) lack) }
{
    laws_below();
    let (param, side) = end_at(place);
    let needs = needs_of(alloc, compiled, scripts, others, param, side)?;
    let short = furthest(&needs);
    let mut left = Vec::new(alloc);
    push_left(&mut left, &needs)?;
    Ok(Lack { short, left })
}

// By how much an end has to be moved for each obligation.
fn needs_of(
    alloc: Global,
    compiled: &Compiled<'_>,
    scripts: &[Script],
    others: &[Lost],
    param: u32,
    side: Side,
) -> Result<Vec<Need>, Memory>
    requires fit { All (Fits compiled.now.line.now) scripts.now }
    requires off { AreOff compiled.now.line.now scripts.now others.now }
    requires param { param < param_count compiled.now.line.now }
    ensures { IfOk result (λ needs. AreNeeds compiled.now.line.now scripts.now others.now param
        side (length others.now) needs.items) }
{
    let mut needs = Vec::new(alloc);
    for i in 0..others.len() {
        let need = need_at(alloc, compiled, scripts, others, i, param, side)?;
        needs.push(need)?;
    }
    Ok(needs)
}

// For one of them.
fn need_at(
    alloc: Global,
    compiled: &Compiled<'_>,
    scripts: &[Script],
    others: &[Lost],
    i: usize,
    param: u32,
    side: Side,
) -> Result<Need, Memory>
    requires fit { All (Fits compiled.now.line.now) scripts.now }
    requires off { AreOff compiled.now.line.now scripts.now others.now }
    requires place { i < length others.now }
    requires param { param < param_count compiled.now.line.now }
    ensures { IfOk result (λ need.
        IsNeedAt compiled.now.line.now scripts.now others.now param side i need) }
{
    let of = lost_at(others, i);
    let asked = Asked {
        compiled: *compiled,
        script: script_of(scripts, of),
        terminal: of.terminal,
        param,
        side,
    };
    let by = least_move(alloc, &asked)?;
    Ok(Need { of, by })
}

fn lost_at(others: &[Lost], i: usize) -> Lost
    requires { i < length others.now }
    ensures { slice_get others.now i ≡ Some result }
{
    others[i]
}

fn script_of(scripts: &[Script], of: Lost) -> &Script
    requires { of.script < length scripts.now }
    ensures { slice_get scripts.now of.script ≡ Some result.now }
{
    &scripts[of.script as usize]
}

// The first of those that need the furthest move.
fn furthest(needs: &[Need]) -> Option<Short>
    ensures { IsShort needs.now (length needs.now) result }
{
    let mut short = None;
    for i in 0..needs.len() {
        short = further(short, need_of(needs, i));
    }
    short
}

fn need_of(needs: &[Need], i: usize) -> Need
    requires { i < length needs.now }
    ensures { slice_get needs.now i ≡ Some result }
{
    needs[i]
}

// The one of a need, where it is further.
fn further(short: Option<Short>, need: Need) -> Option<Short>
    ensures { (needs : List NeedOf) (n : ℕ) → slice_get needs n ≡ Some need →
        IsShort needs n short → IsShort needs (n + 1) result }
{
    match need.by {
        None => short,
        Some(by) => further_of(short, Short { by, of: need.of }),
    }
}

// The further of the two, the first of equals.
fn further_of(old: Option<Short>, new: Short) -> Option<Short>
    ensures { (needs : List NeedOf) (n : ℕ) → slice_get needs n ≡ Some (need_with new) →
        IsShort needs n old → IsShort needs (n + 1) result }
{
    match old {
        None => Some(new),
        Some(first) => {
            if new.by <= first.by {
                Some(first)
            } else {
                Some(new)
            }
        }
    }
}

// Appends those that no move holds.
fn push_left(left: &mut Vec<Lost>, needs: &[Need]) -> Result<(), Memory>
    ensures { OnOk result (left.new.items ≡ left.old.items ++ left_among needs.now) }
{
    match needs {
        [] => Ok(()),
        [need, more @ ..] => {
            if need.by.is_none() {
                left.push(need.of)?;
            }
            push_left(left, more)
        }
    }
}
