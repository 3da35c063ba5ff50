//! What is told along the first time.

ghost use Rattle.std.specs.Prelude.{◌≡◌, ◌≤◌, ℕ, List, length, get_or, IfOk, IsTrue};
ghost use Rattle.std.specs.List.{All};
ghost use Rattle.model_history.specs.Rails.{Ends, single};
ghost use Rattle.judge_borders.specs.Parts.{IsPart};
ghost use Rattle.judge_times.specs.Answers.{AreAnswers};
ghost use Rattle.judge_times.specs.Stretches.{AreStretches, FollowFrom, IsGap, IsStretch};
ghost use Rattle.judge_times.specs.declared.fault.Uncertain.{Uncertain};
ghost use Rattle.judge_times.specs.declared.stretch.Along.TheVariants.{Held, Fails, Open};

use crate::along::{failing_times, first_in, some_unheld, some_unheld_over};
use crate::part::Part;
use crate::stretch::{Along, Gap, Stretch};
use model_line::Memory;
use run_signal::Within;
use std::alloc::Global;

/// What the parts of an answer tell of a terminal along the first time, from its least to its greatest, as stretches
/// that follow one another: each begins where the last one ends.
pub fn stretches(
    alloc: Global,
    parts: &[Part],
    whole: &[Within],
    terminal: u32,
) -> Result<Vec<Stretch>, Memory>
    requires whole { IsPart whole.now }
    requires some { 1 ≤ length whole.now }
    ensures { IfOk result (λ found. (of : Uncertain) → AreAnswers of whole.now parts.now →
        AreStretches of whole.now terminal found.items) }
{
    let first = first_in(whole);
    let mut found = Vec::new(alloc);
    let mut last = begin(alloc, parts, whole, terminal)?;
    for t in first.least()..first.greatest() {
        last = go_on(
            alloc,
            parts,
            whole,
            Gap { from: t, to: t + 1 },
            terminal,
            last,
            &mut found,
        )?;
    }
    found.push(last)?;
    Ok(found)
}

// The stretch behind a gap between two ticks, and behind the second of them.
fn go_on(
    alloc: Global,
    parts: &[Part],
    whole: &[Within],
    gap: Gap,
    terminal: u32,
    last: Stretch,
    found: &mut Vec<Stretch>,
) -> Result<Stretch, Memory>
    requires whole { IsPart whole.now }
    requires some { 1 ≤ length whole.now }
    requires gap { IsGap whole.now gap }
    requires meet { last.to ≡ gap.from }
    ensures to { IfOk result (λ one. one.to ≡ gap.to) }
    ensures follow { IfOk result (λ one. (from : ℕ) → FollowFrom from found.old.items last.from →
        FollowFrom from found.new.items one.from) }
    ensures says { IfOk result (λ one. (of : Uncertain) → AreAnswers of whole.now parts.now →
        All (IsStretch of whole.now terminal) found.old.items → IsStretch of whole.now terminal last →
        All (IsStretch of whole.now terminal) found.new.items × IsStretch of whole.now terminal one) }
{
    let along = gap_along(alloc, parts, whole, gap, terminal)?;
    let tick = tick_along(alloc, parts, gap.to, terminal)?;
    let behind = joined(last, along, found)?;
    if fails(&tick) {
        joined(behind, tick, found)
    } else {
        Ok(behind)
    }
}

// The first tick alone; all of it, where the first time is one tick.
fn begin(alloc: Global, parts: &[Part], whole: &[Within], terminal: u32) -> Result<Stretch, Memory>
    requires whole { IsPart whole.now }
    requires some { 1 ≤ length whole.now }
    ensures from { IfOk result (λ one. one.from ≡ (get_or whole.now 0 (single 0)).least) }
    ensures to { IfOk result (λ one. one.to ≡ (get_or whole.now 0 (single 0)).least) }
    ensures says { IfOk result (λ one. (of : Uncertain) → AreAnswers of whole.now parts.now →
        IsStretch of whole.now terminal one) }
{
    let first = first_in(whole);
    let least = first.least();
    if least == first.greatest() && !some_unheld(parts, terminal) {
        return Ok(held(alloc, least, least));
    }
    tick_along(alloc, parts, least, terminal)
}

// What is told of a tick alone: that it fails, or nothing.
fn tick_along(alloc: Global, parts: &[Part], t: u32, terminal: u32) -> Result<Stretch, Memory>
    ensures from { IfOk result (λ one. one.from ≡ t) }
    ensures to { IfOk result (λ one. one.to ≡ t) }
    ensures says { IfOk result (λ one. (of : Uncertain) (whole : List Ends) → AreAnswers of whole parts.now →
        IsStretch of whole terminal one) }
{
    match failing_times(alloc, parts, t, terminal)? {
        Some(place) => Ok(Stretch {
            from: t,
            to: t,
            told: Along::Fails,
            place,
        }),
        None => Ok(untold(alloc, t, t)),
    }
}

// What is told from a tick to the next: held where each part that has both tells so; it fails where both fail.
fn gap_along(
    alloc: Global,
    parts: &[Part],
    whole: &[Within],
    gap: Gap,
    terminal: u32,
) -> Result<Stretch, Memory>
    requires whole { IsPart whole.now }
    requires some { 1 ≤ length whole.now }
    requires gap { IsGap whole.now gap }
    ensures from { IfOk result (λ one. one.from ≡ gap.from) }
    ensures to { IfOk result (λ one. one.to ≡ gap.to) }
    ensures says { IfOk result (λ one. (of : Uncertain) → AreAnswers of whole.now parts.now →
        IsStretch of whole.now terminal one) }
{
    if !some_unheld_over(parts, gap.from, terminal) {
        return Ok(held(alloc, gap.from, gap.to));
    }
    let first = tick_along(alloc, parts, gap.from, terminal)?;
    let next = tick_along(alloc, parts, gap.to, terminal)?;
    if fails(&first) && fails(&next) {
        Ok(Stretch {
            from: gap.from,
            to: gap.to,
            told: Along::Fails,
            place: first.place,
        })
    } else {
        Ok(untold(alloc, gap.from, gap.to))
    }
}

// Two stretches as one if they tell the same; else the first is appended, unless it is a tick of which nothing is lost
// by what is told behind it.
fn joined(last: Stretch, next: Stretch, found: &mut Vec<Stretch>) -> Result<Stretch, Memory>
    requires meet { last.to ≡ next.from }
    ensures to { IfOk result (λ one. one.to ≡ next.to) }
    ensures follow { IfOk result (λ one. (from : ℕ) → FollowFrom from found.old.items last.from →
        FollowFrom from found.new.items one.from) }
    ensures says { IfOk result (λ one. (of : Uncertain) (whole : List Ends) (k : ℕ) →
        All (IsStretch of whole k) found.old.items → IsStretch of whole k last → IsStretch of whole k next →
        All (IsStretch of whole k) found.new.items × IsStretch of whole k one) }
{
    if same(last.told, next.told) {
        return Ok(Stretch {
            from: last.from,
            to: next.to,
            told: last.told,
            place: last.place,
        });
    }
    if last.from == last.to && !fails(&last) {
        return Ok(next);
    }
    found.push(last)?;
    Ok(next)
}

fn held(alloc: Global, from: u32, to: u32) -> Stretch
    ensures from { result.from ≡ from }
    ensures to { result.to ≡ to }
    ensures told { result.told ≡ Held }
{
    Stretch {
        from,
        to,
        told: Along::Held,
        place: Vec::new(alloc),
    }
}

fn untold(alloc: Global, from: u32, to: u32) -> Stretch
    ensures from { result.from ≡ from }
    ensures to { result.to ≡ to }
    ensures told { result.told ≡ Open }
{
    Stretch {
        from,
        to,
        told: Along::Open,
        place: Vec::new(alloc),
    }
}

fn fails(one: &Stretch) -> bool
    ensures { IsTrue result → one.now.told ≡ Fails }
{
    matches!(one.told, Along::Fails)
}

fn same(one: Along, other: Along) -> bool
    ensures { IsTrue result → one ≡ other }
{
    match one {
        Along::Held => matches!(other, Along::Held),
        Along::Fails => matches!(other, Along::Fails),
        Along::Open => matches!(other, Along::Open),
    }
}
