//! The axes that the words ask for.

ghost use Rattle.std.specs.Prelude.{◌≡◌, ◌≤◌, ◌<◌, ◌==◌, Err, Ok, IfOk, IfSome, None};
ghost use Rattle.std.specs.Prelude.{Option as OptionOf};
ghost use Rattle.std.specs.List.{list_any};
ghost use Rattle.std.specs.Option.{option_copied};
ghost use Rattle.model_line.specs.Parameters.{param_count};
ghost use Rattle.judge_margins.specs.map.Axes.{AreAxes, CanMoveBoth, IsAxis, IsSecond};
ghost use Rattle.judge_margins.specs.map.Placed.{AreOfLine};
ghost use Rattle.draw_map.specs.Maps.{IsSmallSecond};
ghost use Rattle.call_work.specs.map.Asked.{AreAxesOf, Both as BothOf, IsAxisOf, IsSecondOf, Moved as MovedOf};
ghost use Rattle.call_work.specs.map.Asked.{Tells, asked_of, denial_by as denial_of, first_among as first_among_of, moved_by};
ghost use Rattle.call_work.specs.map.Asked.{second_by, twice_by};
ghost use Rattle.call_work.specs.declared.map.denial.MapDenial.{MapDenial as DenialOf};
ghost use Rattle.base_memory.specs.declared.stopped.Stopped.TheVariants.{Fault};

use crate::load::nearest_parameter;
use crate::map::denial::{MapDenial, Side};
use base_memory::{Memory, Stopped};
use call_choose::name_in_list;
use file_study::times::{AxisFault, names_of, params_of, read_steps};
use judge_margins::map::{Axes, Axis, map_fault};
use model_line::Line;
use std::alloc::Global;

/// The axes that these words ask for, which a map can be made of; or the first fault.
pub fn axes_of(
    alloc: Global,
    line: &Line,
    x: &[u8],
    y: Option<&[u8]>,
) -> Result<Axes, Stopped<MapDenial>>
    ensures are { IfOk result (λ axes. (both : BothOf)
        × (asked_of line.now x.now (option_copied y.entry) ≡ Ok both) × AreAxesOf both axes) }
    ensures denied { (why : DenialOf) → result ≡ Err (Fault why) →
        asked_of line.now x.now (option_copied y.entry) ≡ Err why }
    ensures axes { IfOk result (AreAxes line.now) }
    ensures can { IfOk result (CanMoveBoth line.now) }
    ensures small { IfOk result (λ axes. axes.x.step ≤ 4000) }
    ensures second { IfOk result (λ axes. IsSmallSecond axes.y) }
{
    let x = axis_of(alloc, line, Side::X, x)?;
    let y = second_of(alloc, line, y)?;
    let axes = Axes { x, y };
    match denied(line, &axes) {
        Some(why) => Err(Stopped::Fault(why)),
        None => Ok(axes),
    }
}

// The axis that these words ask for.
fn axis_of(alloc: Global, line: &Line, side: Side, words: &[u8]) -> Result<Axis, Stopped<MapDenial>>
    ensures is { IfOk result (λ axis. (moved : MovedOf)
        × (moved_by line.now side words.now ≡ Ok moved) × IsAxisOf moved axis) }
    ensures denied { (why : DenialOf) → result ≡ Err (Fault why) →
        moved_by line.now side words.now ≡ Err why }
    ensures axis { IfOk result (IsAxis line.now) }
    ensures small { IfOk result (λ axis. axis.step ≤ 4000) }
{
    match read_steps(line, words) {
        Ok(steps) => {
            let params = params_of(alloc, line, names_of(words))?;
            Ok(Axis {
                params,
                first: steps.first,
                last: steps.last,
                step: steps.step,
            })
        }
        Err(why) => Err(Stopped::Fault(denial_by(alloc, line, side, words, why)?)),
    }
}

// Why the words ask for no axis.
fn denial_by(
    alloc: Global,
    line: &Line,
    side: Side,
    words: &[u8],
    why: AxisFault,
) -> Result<MapDenial, Memory>
    ensures { IfOk result (λ denial. denial ≡ denial_of line.now side words.now why) }
{
    match why {
        AxisFault::Unknown(number) => {
            let name = name_in_list(names_of(words), number.saturating_sub(1));
            let near = nearest_parameter(alloc, line, name)?;
            Ok(MapDenial::Unknown { side, number, near })
        }
        AxisFault::NoEquals
        | AxisFault::NoLast
        | AxisFault::NoStep
        | AxisFault::NoTicks(_)
        | AxisFault::BadTime(_, _)
        | AxisFault::NoInstant(_)
        | AxisFault::Beyond(_)
        | AxisFault::OffGrid(_)
        | AxisFault::Order
        | AxisFault::StepOfZero => Ok(MapDenial::Words(side, why)),
    }
}

// The second axis, if there are words for one.
fn second_of(
    alloc: Global,
    line: &Line,
    words: Option<&[u8]>,
) -> Result<Option<Axis>, Stopped<MapDenial>>
    ensures is { IfOk result (λ axis. (moved : OptionOf MovedOf)
        × (second_by line.now (option_copied words.entry) ≡ Ok moved) × IsSecondOf moved axis) }
    ensures denied { (why : DenialOf) → result ≡ Err (Fault why) →
        second_by line.now (option_copied words.entry) ≡ Err why }
    ensures axis { IfOk result (IsSecond line.now) }
    ensures small { IfOk result IsSmallSecond }
{
    match words {
        Some(words) => Ok(Some(axis_of(alloc, line, Side::Y, words)?)),
        None => Ok(None),
    }
}

// Why a map cannot be made of these axes, if it cannot.
#[tactic(auto, using(crate::proofs::map_lemmas::SameAxes::same_fault, crate::proofs::map_lemmas::SameAxes::same_both))]
fn denied(line: &Line, axes: &Axes) -> Option<MapDenial>
    requires { AreAxes line.now axes.now }
    ensures told { (both : BothOf) → AreAxesOf both axes.now → Tells line.now both result }
    ensures can { result ≡ None → CanMoveBoth line.now axes.now }
{
    if let Some(param) = twice(line, &axes.x, &axes.y) {
        return Some(MapDenial::Twice(line.params[param as usize].name));
    }
    match map_fault(line, axes) {
        Some(why) => Some(MapDenial::Fault(why)),
        None => None,
    }
}

// The first parameter of the second axis that moves along the first too.
fn twice(line: &Line, x: &Axis, y: &Option<Axis>) -> Option<u32>
    requires { IsSecond line.now y.now }
    ensures is { result ≡ twice_by x.now.params.items y.now }
    ensures exists { IfSome result (λ param. param < param_count line.now) }
{
    match y {
        Some(y) => first_among(line, x.params.as_slice(), y.params.as_slice()),
        None => None,
    }
}

// The first of these parameters that is one of the others too.
fn first_among(line: &Line, others: &[u32], params: &[u32]) -> Option<u32>
    requires { AreOfLine line.now params.now }
    ensures is { result ≡ first_among_of others.now params.now }
    ensures exists { IfSome result (λ param. param < param_count line.now) }
{
    match params {
        [] => None,
        [param, rest @ ..] => {
            if is_among(others, *param) {
                Some(*param)
            } else {
                first_among(line, others, rest)
            }
        }
    }
}

fn is_among(others: &[u32], param: u32) -> bool
    ensures { result ≡ list_any (λ other. other == param) others.now }
{
    others.iter().any(|other| *other == param)
}
