//! The interval histories of views, side by side.

ghost use Rattle.std.specs.Prelude.{◌≡◌, ◌≤◌, ◌<◌, ℕ, Some, Decides, length, slice_get, IfOk};
ghost use Rattle.std.specs.Prelude.{IsFalse};
ghost use Rattle.model_settle.specs.Assumed.{HasSpan, HaveSpans, span_of};
ghost use Rattle.run_signal.specs.Bits.{bit_on};
ghost use Rattle.run_ticks.specs.cases.UnderWaves.{own_wave, value_at};
ghost use Rattle.judge_verdict.specs.boxes.Terns.{terns_rails};
ghost use Rattle.judge_cases.specs.{declared.view.View.View, Views.AreViews};
ghost use Rattle.judge_cases.specs.Analyses.{IsAnalysis};
ghost use Rattle.judge_cases.specs.AssumedAt.{span_at};
ghost use Rattle.judge_cases.specs.Excluded.{ExcludedIn, IsOffIn, OneExcluded, OneIsExcluded};

use crate::assumed::Assumed;
use crate::levels::masks_of;
use crate::spans::view_spans;
use crate::view::View;
use crate::wanted::wanted_gate;
use judge_verdict::boxes::Terns64;
use model_line::{Memory, Script};
use model_logic::laws::line_laws;
use model_settle::case_laws::{each_box_has_one_history_under, what_is_shown_rests_on_the_box};
use net_gates::laws::gates_stand_for_their_trees;
use net_gates::{Compiled, GateId};
use run_signal::{Lanes64, Signal};
use run_ticks::cases::{UnderWaves, run_under};
use std::alloc::Global;
use std::marker::Model;

/// What 64 views are in their interval histories: each gate's pair at each tick, its own pair, and
/// the lanes in which an assumption is excluded.
#[derive(Drop)]
pub struct Analysis {
    waves: UnderWaves<Terns64>,
    excluded: Lanes64,
}

/// Analyses up to 64 views side by side: lane i is view i, and the lanes past the last repeat it.
pub fn analyse(
    alloc: Global,
    compiled: &Compiled<'_>,
    script: &Script,
    views: &[View],
) -> Result<Analysis, Memory>
    requires some { 1 ≤ length views.now }
    requires few { length views.now ≤ 64 }
    requires views { AreViews compiled.now.line.now views.now }
    ensures { IfOk result (λ analysis.
        IsAnalysis compiled.now.line.now compiled.now.net.now script.now views.now analysis) }
{
    line_laws();
    gates_stand_for_their_trees();
    each_box_has_one_history_under();
    what_is_shown_rests_on_the_box();
    let spans = view_spans(alloc, compiled.line, views)?;
    let masks = masks_of(alloc, compiled, views)?;
    let waves = run_under::<Terns64>(alloc, compiled, script, &spans, &masks)?;
    let excluded = excluded_lanes(compiled, views, &waves);
    Ok(Analysis { waves, excluded })
}

impl Model for Analysis {
    ghost use Rattle.judge_cases.specs.Analyses.{AnalysisOf, analysis_of};

    ghost Value = { AnalysisOf };

    ghost view = { λ a. analysis_of a.waves a.excluded };
}

impl Analysis {
    /// The value of a gate at a tick, with what is assumed.
    pub fn at(&self, gate: GateId, t: u32) -> Terns64
        requires gate { gate.0 < self.now.waves.width }
        requires tick { t < self.now.waves.horizon }
        ensures { slice_get self.now.waves.values (value_at self.now.waves.width gate.0 t)
            ≡ Some result }
    {
        self.waves.at(gate, t)
    }

    /// The value that a gate has at a tick by its own rule.
    pub fn own(&self, gate: GateId, t: u32) -> Terns64
        requires gate { gate.0 < self.now.waves.width }
        requires tick { t < self.now.waves.horizon }
        ensures { slice_get self.now.waves.owns (value_at self.now.waves.width gate.0 t)
            ≡ Some result }
    {
        self.waves.own(gate, t)
    }

    /// The lanes in which an assumption of the view is excluded.
    pub fn excluded(&self) -> Lanes64
        ensures { result ≡ self.now.excluded }
    {
        self.excluded
    }
}

// The lanes in which an assumption of the view is excluded.
fn excluded_lanes(compiled: &Compiled<'_>, views: &[View], waves: &UnderWaves<Terns64>) -> Lanes64
    requires few { length views.now ≤ 64 }
    requires views { AreViews compiled.now.line.now views.now }
    requires width { waves.now.width ≡ length compiled.now.net.now.gates }
    requires horizon { waves.now.horizon ≡ compiled.now.line.now.horizon }
    ensures { (lane : ℕ) (view : View) → slice_get views.now lane ≡ Some view →
        Decides (bit_on result lane)
        (OneIsExcluded compiled.now.line.now compiled.now.net.now view lane waves.now) }
{
    let mut lanes = Lanes64::known(false);
    for lane in 0..views.len() {
        let excluded = is_excluded(compiled, &views[lane].assumed, waves, lane as u32);
        lanes = lanes.with_lane(lane as u32, excluded);
    }
    lanes
}

// Whether one of these assumptions is excluded in a lane.
fn is_excluded(
    compiled: &Compiled<'_>,
    assumed: &[Assumed],
    waves: &UnderWaves<Terns64>,
    lane: u32,
) -> bool
    requires spans { HaveSpans compiled.now.line.now assumed.now }
    requires lane { lane < 64 }
    requires width { waves.now.width ≡ length compiled.now.net.now.gates }
    requires horizon { waves.now.horizon ≡ compiled.now.line.now.horizon }
    ensures { Decides result
        (OneExcluded compiled.now.line.now compiled.now.net.now assumed.now lane waves.now) }
{
    for i in 0..assumed.len() {
        if is_one_excluded(compiled, assumed[i], waves, lane) {
            return true;
        }
    }
    false
}

// Whether an assumption is excluded in a lane.
fn is_one_excluded(
    compiled: &Compiled<'_>,
    assumed: Assumed,
    waves: &UnderWaves<Terns64>,
    lane: u32,
) -> bool
    requires span { HasSpan compiled.now.line.now (span_of assumed) }
    requires lane { lane < 64 }
    requires width { waves.now.width ≡ length compiled.now.net.now.gates }
    requires horizon { waves.now.horizon ≡ compiled.now.line.now.horizon }
    ensures { Decides result (ExcludedIn compiled.now.line.now compiled.now.net.now lane waves.now
        assumed) }
{
    let (terminal, from, to, throughout) = assumed.parts();
    if throughout {
        is_off_in(compiled, terminal, from, to, waves, lane)
    } else {
        false
    }
}

// Whether an echo cannot be wanted, in a lane, at some tick of a span.
fn is_off_in(
    compiled: &Compiled<'_>,
    terminal: u32,
    from: u32,
    to: u32,
    waves: &UnderWaves<Terns64>,
    lane: u32,
) -> bool
    requires span { HasSpan compiled.now.line.now (span_at terminal from to) }
    requires lane { lane < 64 }
    requires width { waves.now.width ≡ length compiled.now.net.now.gates }
    requires horizon { waves.now.horizon ≡ compiled.now.line.now.horizon }
    ensures { Decides result (IsOffIn compiled.now.line.now compiled.now.net.now lane waves.now
        (span_at terminal from to)) }
{
    gates_stand_for_their_trees();
    let gate = wanted_gate(compiled, terminal);
    for t in from..to {
        if is_off_at(waves, gate, t, lane) {
            return true;
        }
    }
    false
}

// Whether a gate cannot be on by its own rule, in a lane, at a tick.
fn is_off_at(waves: &UnderWaves<Terns64>, gate: GateId, t: u32, lane: u32) -> bool
    requires lane { lane < 64 }
    requires gate { gate.0 < waves.now.width }
    requires tick { t < waves.now.horizon }
    ensures { Decides result (IsFalse (own_wave terns_rails lane waves.now gate.0 t).may) }
{
    let own = waves.own(gate, t);
    !own.may(lane)
}
