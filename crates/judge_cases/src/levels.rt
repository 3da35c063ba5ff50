//! The masks that put the levels that follow from what up to 64 views assume.

ghost use Rattle.std.specs.Prelude.{◌≡◌, ◌≢◌, ◌≤◌, ◌<◌, ◌+◌, ◌*◌, ◌∷◌, ℕ, Bool, List, Some, length};
ghost use Rattle.std.specs.Prelude.{slice_get, slice_set, IfOk, IsTrue, false};
ghost use Rattle.model_history.specs.Rails.{both};
ghost use Rattle.model_logic.specs.{Choice.ends_by, Elements.is_weak, Tree.Tree};
ghost use Rattle.model_settle.specs.Assumed.{Assumption, HasSpan, HaveSpans, span_of};
ghost use Rattle.model_settle.specs.Assumed.{assumed_level, is_among, least_pulse};
ghost use Rattle.run_ticks.specs.cases.Masks.{HaveRows, IsMask};
ghost use Rattle.run_ticks.specs.cases.Runs.{PutUnder};
ghost use Rattle.judge_verdict.specs.boxes.Terns.{terns_rails, terns_signal};
ghost use Rattle.judge_cases.specs.Views.{AreViews, view_box};
ghost use Rattle.judge_cases.specs.Rows.{AreRows, IsRowOf, echo_timer, row_count};
ghost use Rattle.judge_cases.specs.Puts.{ArePutStill, LevelOf, PutIn, no_level, views_level};
ghost use Rattle.judge_cases.specs.Puts as puts;

use crate::assumed::Assumed;
use crate::rows::{rows, terminals};
use crate::view::{View, ends_at};
use crate::wanted::{over_gate, pickup_of, timer_gate};
use judge_verdict::boxes::Terns64;
use model_line::{Line, Memory};
use model_logic::Time;
use model_settle::case_laws::same_trees_are_equal;
use net_gates::Compiled;
use net_gates::laws::gates_stand_for_their_trees;
use run_signal::Signal;
use run_ticks::cases::{Mask, Masks};
use std::alloc::Global;

/// A mask for each tick and row that puts in each lane the levels that follow from what its view
/// assumes.
pub fn masks_of(
    alloc: Global,
    compiled: &Compiled<'_>,
    views: &[View],
) -> Result<Masks<Terns64>, Memory>
    requires few { length views.now ≤ 64 }
    requires views { AreViews compiled.now.line.now views.now }
    ensures rows { IfOk result (λ masks.
        HaveRows (length compiled.now.net.now.gates) compiled.now.line.now.horizon masks) }
    ensures put { IfOk result (λ masks.
        PutUnder terns_signal (views_level compiled.now.line.now views.now)
        compiled.now.line.now compiled.now.net.now masks) }
{
    same_trees_are_equal();
    let rows = rows(alloc, compiled)?;
    let count = terminals(compiled.line) as u32 * 2;
    let mut masks = no_masks(alloc, compiled.line.horizon, count)?;
    for lane in 0..views.len() {
        put_view(compiled, &rows, lane as u32, &views[lane], &mut masks);
    }
    Ok(Masks { rows, count, masks })
}

// Masks that put nothing, one for each tick and row.
fn no_masks(alloc: Global, horizon: u32, count: u32) -> Result<Vec<Mask<Terns64>>, Memory>
    requires short { horizon ≤ 4000 }
    requires few { count ≤ 6 }
    ensures count { IfOk result (λ masks. length masks.items ≡ horizon * count) }
    ensures none { IfOk result (λ masks. (i : ℕ) (mask : Mask Terns64) →
        slice_get masks.items i ≡ Some mask → (lane : ℕ) → lane < 64 →
        (terns_rails mask.off lane ≡ both false) × (terns_rails mask.on lane ≡ both false)) }
{
    let none = Mask {
        off: Terns64::known(false),
        on: Terns64::known(false),
    };
    let all = horizon as usize * count as usize;
    let mut masks = Vec::with_capacity(alloc, all)?;
    masks.resize(all, none).unwrap();
    Ok(masks)
}

// Puts in a lane the levels that follow from what a view assumes, the latest assumption last.
fn put_view(
    compiled: &Compiled<'_>,
    rows: &[Option<u32>],
    lane: u32,
    view: &View,
    masks: &mut Vec<Mask<Terns64>>,
)
    requires rows { AreRows compiled.now.line.now compiled.now.net.now
        (row_count compiled.now.line.now) rows.now }
    requires lane { lane < 64 }
    requires spans { HaveSpans compiled.now.line.now view.now.assumed.items }
    requires count { length masks.old.items
        ≡ compiled.now.line.now.horizon * row_count compiled.now.line.now }
    ensures count { length masks.new.items
        ≡ compiled.now.line.now.horizon * row_count compiled.now.line.now }
    ensures lane { PutIn compiled.now.line.now compiled.now.net.now rows.now masks.old.items lane
        no_level →
        PutIn compiled.now.line.now compiled.now.net.now rows.now masks.new.items lane
        (assumed_level compiled.now.line.now (view_box compiled.now.line.now view.now)
        view.now.assumed.items) }
    ensures others { ArePutStill compiled.now.line.now compiled.now.net.now rows.now lane
        masks.old.items masks.new.items }
{
    let assumed: &[Assumed] = &view.assumed;
    for back in 0..assumed.len() {
        put_one(
            compiled,
            rows,
            lane,
            view,
            assumed[assumed.len() - 1 - back],
            masks,
        );
    }
}

// Puts in a lane the levels that follow from an assumption, in place of what was put there before.
fn put_one(
    compiled: &Compiled<'_>,
    rows: &[Option<u32>],
    lane: u32,
    view: &View,
    assumed: Assumed,
    masks: &mut Vec<Mask<Terns64>>,
)
    requires rows { AreRows compiled.now.line.now compiled.now.net.now
        (row_count compiled.now.line.now) rows.now }
    requires lane { lane < 64 }
    requires span { HasSpan compiled.now.line.now (span_of assumed) }
    requires count { length masks.old.items
        ≡ compiled.now.line.now.horizon * row_count compiled.now.line.now }
    ensures count { length masks.new.items
        ≡ compiled.now.line.now.horizon * row_count compiled.now.line.now }
    ensures lane { (before : List Assumption) →
        PutIn compiled.now.line.now compiled.now.net.now rows.now masks.old.items lane
        (assumed_level compiled.now.line.now (view_box compiled.now.line.now view.now) before) →
        PutIn compiled.now.line.now compiled.now.net.now rows.now masks.new.items lane
        (assumed_level compiled.now.line.now (view_box compiled.now.line.now view.now)
        (assumed ∷ before)) }
    ensures others { ArePutStill compiled.now.line.now compiled.now.net.now rows.now lane
        masks.old.items masks.new.items }
{
    let (terminal, from, to, throughout) = assumed.parts();
    let row = row_at(compiled, rows, terminal, throughout);
    if throughout {
        put_level(compiled, rows, lane, row, from, to, true, masks);
    } else {
        let until = from as u64 + pulse_in(compiled, view, terminal) as u64;
        let end = end_of(compiled.line, to, until);
        put_level(compiled, rows, lane, row, to, end, false, masks);
    }
}

// The row of what the echo of a terminal starts from, or of the timer that tells that its pulse is
// over.
fn row_at(compiled: &Compiled<'_>, rows: &[Option<u32>], terminal: u32, throughout: bool) -> u32
    requires rows { AreRows compiled.now.line.now compiled.now.net.now
        (row_count compiled.now.line.now) rows.now }
    requires weak { IsTrue (is_weak compiled.now.line.now terminal) }
    ensures exists { result < row_count compiled.now.line.now }
    ensures is { IsRowOf compiled.now.net.now rows.now
        (echo_timer compiled.now.line.now terminal throughout) result }
{
    gates_stand_for_their_trees();
    let gate = timer_gate(compiled, terminal, throughout);
    match rows[gate.0 as usize] {
        Some(row) => row,
        None => 0,
    }
}

// The least time that an echo of a terminal lasts, in the box of a view.
fn pulse_in(compiled: &Compiled<'_>, view: &View, terminal: u32) -> u32
    requires weak { IsTrue (is_weak compiled.now.line.now terminal) }
    ensures { result ≡ least_pulse compiled.now.line.now (view_box compiled.now.line.now view.now)
        terminal }
{
    let over = over_gate(compiled, terminal);
    match pickup_of(compiled.net, over) {
        Time::Zero => 0,
        Time::Param(param) => ends_at(view, param).least(),
    }
}

// Where the ticks from `from` on, before `until`, end in the run.
fn end_of(line: &Line, from: u32, until: u64) -> u32
    requires { from ≤ line.now.horizon }
    ensures from { from ≤ result }
    ensures run { result ≤ line.now.horizon }
    ensures among { (t : ℕ) → t < line.now.horizon → is_among from result t ≡ is_among from until t }
{
    if until < from as u64 {
        from
    } else if until < line.horizon as u64 {
        until as u32
    } else {
        line.horizon
    }
}

// Puts a level in a lane and a row, at the ticks from `from` on, before `to`.
fn put_level(
    compiled: &Compiled<'_>,
    rows: &[Option<u32>],
    lane: u32,
    row: u32,
    from: u32,
    to: u32,
    level: bool,
    masks: &mut Vec<Mask<Terns64>>,
)
    requires rows { AreRows compiled.now.line.now compiled.now.net.now
        (row_count compiled.now.line.now) rows.now }
    requires lane { lane < 64 }
    requires row { row < row_count compiled.now.line.now }
    requires from { from ≤ to }
    requires run { to ≤ compiled.now.line.now.horizon }
    requires count { length masks.old.items
        ≡ compiled.now.line.now.horizon * row_count compiled.now.line.now }
    ensures count { length masks.new.items
        ≡ compiled.now.line.now.horizon * row_count compiled.now.line.now }
    ensures lane { (x : Tree) (before : LevelOf) → IsRowOf compiled.now.net.now rows.now x row →
        PutIn compiled.now.line.now compiled.now.net.now rows.now masks.old.items lane before →
        PutIn compiled.now.line.now compiled.now.net.now rows.now masks.new.items lane
        (puts.with_level before x from to level) }
    ensures others { ArePutStill compiled.now.line.now compiled.now.net.now rows.now lane
        masks.old.items masks.new.items }
{
    same_trees_are_equal();
    let count = terminals(compiled.line) * 2;
    for t in from..to {
        let place = t as usize * count + row as usize;
        let old = mask_in(masks, place);
        let new = with_level(old, lane, level);
        set_mask(masks, place, new);
    }
}

// The mask at a place.
fn mask_in(masks: &[Mask<Terns64>], place: usize) -> Mask<Terns64>
    requires { place < length masks.now }
    ensures { slice_get masks.now place ≡ Some result }
{
    masks[place]
}

// Writes the mask at a place.
fn set_mask(masks: &mut Vec<Mask<Terns64>>, place: usize, mask: Mask<Terns64>)
    requires { place < length masks.old.items }
    ensures { masks.new.items ≡ slice_set masks.old.items place mask }
{
    masks[place] = mask;
}

// A mask that puts a level in a lane, and in the others what it did.
fn with_level(mask: Mask<Terns64>, lane: u32, level: bool) -> Mask<Terns64>
    requires { lane < 64 }
    ensures lane { IsMask terns_rails lane (Some level) result }
    ensures off { (k : ℕ) → k < 64 → k ≢ lane →
        terns_rails result.off k ≡ terns_rails mask.off k }
    ensures on { (k : ℕ) → k < 64 → k ≢ lane → terns_rails result.on k ≡ terns_rails mask.on k }
{
    Mask {
        off: with_lane(mask.off, lane, !level),
        on: with_lane(mask.on, lane, level),
    }
}

// A value that is known to be this in a lane.
fn with_lane(value: Terns64, lane: u32, level: bool) -> Terns64
    requires { lane < 64 }
    ensures lane { terns_rails result lane ≡ both level }
    ensures others { (k : ℕ) → k < 64 → k ≢ lane → terns_rails result k ≡ terns_rails value k }
{
    Terns64 {
        must: value.must.with_lane(lane, level),
        may: value.may.with_lane(lane, level),
    }
}
