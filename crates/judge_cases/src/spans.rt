//! The intervals of up to 64 views side by side.

ghost use Rattle.std.specs.Prelude.{◌≡◌, ◌≤◌, ◌<◌, Some, length, slice_get, IfOk};
ghost use Rattle.model_line.specs.Parameters.{param_count};
ghost use Rattle.run_signal.specs.Spans.{AreInOrder};
ghost use Rattle.model_logic.specs.Boxes.{interval_of};
ghost use Rattle.judge_cases.specs.{declared.view.View.View, Views.AreViews};
ghost use Rattle.judge_cases.specs.Spans.{IsViewSpan, AreViewSpans, view_in};

use crate::view::View;
use judge_verdict::boxes::Spans64;
use model_line::{Line, Memory};
use run_signal::{Tick, Ticks64, Within};
use std::alloc::Global;

/// A span for each parameter: in each lane that of its view.
pub fn view_spans(alloc: Global, line: &Line, views: &[View]) -> Result<Vec<Spans64>, Memory>
    requires some { 1 ≤ length views.now }
    requires views { AreViews line.now views.now }
    ensures { IfOk result (λ spans. AreViewSpans line.now views.now spans.items) }
{
    let mut spans = Vec::new(alloc);
    for param in 0..line.param_count() {
        spans.push(view_span(line, views, param))?;
    }
    Ok(spans)
}

// The interval of a parameter in each view.
fn view_span(line: &Line, views: &[View], param: u32) -> Spans64
    requires some { 1 ≤ length views.now }
    requires views { AreViews line.now views.now }
    requires param { param < param_count line.now }
    ensures { IsViewSpan views.now param result }
{
    let mut least = [Tick::new(0); 64];
    let mut greatest = [Tick::new(0); 64];
    for lane in 0..64 {
        let ends = ends_in(line, views, lane, param);
        least[lane] = Tick::new(ends.least());
        greatest[lane] = Tick::new(ends.greatest());
    }
    Spans64::new(Ticks64::new(least), Ticks64::new(greatest))
}

// The interval of a parameter in the view of a lane.
fn ends_in(line: &Line, views: &[View], lane: usize, param: u32) -> Within
    requires some { 1 ≤ length views.now }
    requires views { AreViews line.now views.now }
    requires lane { lane < 64 }
    requires param { param < param_count line.now }
    ensures ends { (view : View) →
        slice_get views.now (view_in (length views.now) lane) ≡ Some view →
        result ≡ interval_of view.ends.items param }
    ensures in_order { AreInOrder result }
{
    let ends: &[Within] = &views[view_at(views.len(), lane)].ends;
    let ends = ends[param as usize];
    let _least = ends.least();
    ends
}

// The number of the view in a lane. The lanes past the last view repeat it.
fn view_at(count: usize, lane: usize) -> usize
    requires { 1 ≤ count }
    ensures number { result ≡ view_in count lane }
    ensures exists { result < count }
{
    if lane < count { lane } else { count - 1 }
}
