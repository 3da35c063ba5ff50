//! Views: boxes, each with what is assumed.

ghost use Rattle.std.specs.Prelude.{◌≡◌, ◌≤◌, ◌<◌, ◌∷◌, [], ℕ, List, Some, length};
ghost use Rattle.std.specs.Prelude.{slice_get, slice_set, IfOk};
ghost use Rattle.std.specs.Bool.{Decides};
ghost use Rattle.model_history.specs.Rails.{Ends};
ghost use Rattle.model_line.specs.Parameters.{param_count, declared_ends};
ghost use Rattle.model_line.specs.declared.line.Line.{Line};
ghost use Rattle.model_logic.specs.Choice.{Box, declared_box};
ghost use Rattle.model_settle.specs.Assumed.{Assumption};
ghost use Rattle.model_settle.specs.Assumed.{HasSpan, span_of};
ghost use Rattle.model_settle.specs.Parts.{CanPart, upper_from};
ghost use Rattle.model_logic.specs.Boxes.{lower_half};
ghost use Rattle.judge_cases.specs.AssumedAt.{span_at};
ghost use Rattle.run_signal.specs.Spans.{AreInOrder};
ghost use Rattle.model_logic.specs.Boxes.{interval_of};
ghost use Rattle.judge_cases.specs.Views.{IsView, Views, view_box};

use crate::assumed::Assumed;
use model_line::laws::delays_are_parameters;
use model_line::{Line, Memory};
use model_logic::is_terminal_weak;
use model_timing::declared_interval;
use run_signal::Within;
use std::alloc::Global;

/// An interval for each parameter, in the order of the line, and what is assumed, the latest first.
#[derive(Drop)]
pub struct View {
    pub ends: Vec<Within>,
    pub assumed: Vec<Assumed>,
}

/// The declared box, with nothing assumed.
pub fn declared_view(alloc: Global, line: &Line) -> Result<View, Memory>
    ensures { IfOk result (λ view. Views line.now (declared_box line.now) [] view) }
{
    delays_are_parameters();
    let ends = declared_list(alloc, line)?;
    let assumed = Vec::new(alloc);
    Ok(View { ends, assumed })
}

// The declared interval of each parameter.
fn declared_list(alloc: Global, line: &Line) -> Result<Vec<Within>, Memory>
    ensures count { IfOk result (λ ends. length ends.items ≡ param_count line.now) }
    ensures each { IfOk result (λ ends. (i : ℕ) (e : Ends) → slice_get ends.items i ≡ Some e →
        e ≡ declared_ends line.now i) }
{
    let mut ends = Vec::new(alloc);
    for param in 0..line.param_count() {
        let own = declared_interval(line, param);
        ends.push(own)?;
    }
    Ok(ends)
}

/// Whether the box of a view can be parted there.
pub fn can_part(line: &Line, view: &View, param: u32, mid: u32) -> bool
    ensures { (box : Box) (assumed : List Assumption) → Views line.now box assumed view.now →
        Decides result (CanPart line.now box param mid) }
{
    if param >= line.param_count() {
        return false;
    }
    if line.is_delay(param) {
        return false;
    }
    match view.ends.get(param as usize) {
        Some(ends) => ends.least() < mid && mid < ends.greatest(),
        None => false,
    }
}

/// Whether cases can be told apart over these ticks: at a weak terminal of the line, within the run.
pub fn has_span(line: &Line, terminal: u32, from: u32, to: u32) -> bool
    ensures { Decides result (HasSpan line.now (span_at terminal from to)) }
{
    let terminals = line.terminals.len();
    if terminal as usize >= terminals {
        return false;
    }
    is_terminal_weak(line, terminal) && from < to && to <= line.horizon
}

/// The view of the lower half of a box, under the same assumptions.
pub fn lower_view(
    alloc: Global,
    line: &Line,
    view: &View,
    param: u32,
    mid: u32,
) -> Result<View, Memory>
    requires part { CanPart line.now (view_box line.now view.now) param mid }
    requires view { IsView line.now view.now }
    ensures { IfOk result (λ half. (box : Box) (assumed : List Assumption) →
        Views line.now box assumed view.now →
        Views line.now (lower_half box param mid) assumed half) }
{
    delays_are_parameters();
    let ends = ends_at(view, param);
    let least = ends.least();
    let _greatest = ends.greatest();
    let new = Within::new(least, mid);
    let half = with_ends(alloc, view, param, new)?;
    Ok(half)
}

/// The view of the upper part of a box, from where the lower half ends, under the same assumptions.
pub fn upper_view(
    alloc: Global,
    line: &Line,
    view: &View,
    param: u32,
    mid: u32,
) -> Result<View, Memory>
    requires part { CanPart line.now (view_box line.now view.now) param mid }
    requires view { IsView line.now view.now }
    ensures { IfOk result (λ half. (box : Box) (assumed : List Assumption) →
        Views line.now box assumed view.now →
        Views line.now (upper_from box param mid) assumed half) }
{
    delays_are_parameters();
    let ends = ends_at(view, param);
    let greatest = ends.greatest();
    let new = Within::new(mid, greatest);
    let half = with_ends(alloc, view, param, new)?;
    Ok(half)
}

/// The view with one assumption more, the latest.
pub fn assumed_view(alloc: Global, line: &Line, view: &View, new: Assumed) -> Result<View, Memory>
    requires { HasSpan line.now (span_of new) }
    ensures { IfOk result (λ case. (box : Box) (assumed : List Assumption) →
        Views line.now box assumed view.now →
        Views line.now box (new ∷ assumed) case) }
{
    let ends = Vec::from_slice(alloc, &view.ends)?;
    let mut assumed = Vec::with_capacity(alloc, view.assumed.len() + 1)?;
    assumed.push(new)?;
    assumed.extend_from_slice(&view.assumed)?;
    Ok(View { ends, assumed })
}

/// The interval of a parameter.
pub fn ends_at(view: &View, param: u32) -> Within
    ensures ends { result ≡ interval_of view.now.ends.items param }
    ensures in_order { AreInOrder result }
{
    match view.ends.get(param as usize) {
        Some(ends) => {
            let _least = ends.least();
            *ends
        }
        None => Within::new(0, 0),
    }
}

// The view with another interval for a parameter.
fn with_ends(alloc: Global, view: &View, param: u32, new: Within) -> Result<View, Memory>
    requires { param < length view.now.ends.items }
    ensures ends { IfOk result (λ other.
        other.ends.items ≡ slice_set view.now.ends.items param new) }
    ensures assumed { IfOk result (λ other. other.assumed.items ≡ view.now.assumed.items) }
{
    let mut ends = Vec::from_slice(alloc, &view.ends)?;
    let assumed = Vec::from_slice(alloc, &view.assumed)?;
    ends[param as usize] = new;
    Ok(View { ends, assumed })
}
