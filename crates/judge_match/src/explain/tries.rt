//! Timings that are tried.

ghost use Rattle.std.specs.Prelude.{◌≡◌, ◌≤◌, ◌<◌, IfOk, IfSome, IsTrue, length};
ghost use Rattle.judge_match.specs.explain.Asked.{AreLeast, AreSingle, IsPart, IsQuestion, recorded_of};
ghost use Rattle.judge_match.specs.explain.Found.{IsExplaining};
ghost use Rattle.judge_match.specs.explain.Parts.{IsExcludedByPlay};

use crate::explain::budget::Budget;
use crate::explain::play::explains;
use crate::explain::question::Question;
use model_line::Memory;
use model_timing::{Timing, inside};
use run_signal::{Tick, Within};
use std::alloc::Global;

/// How many timings of a part are tried.
const TRIES: u32 = 8;

/// A timing of a part that explains the record, if one of some that are tried does.
pub fn tried(
    alloc: Global,
    q: &Question,
    part: &[Within],
    budget: &mut Budget,
) -> Result<Option<Timing>, Memory>
    requires question { IsQuestion q.now }
    ensures { IfOk result (λ found. IfSome found (λ timing. IsExplaining q.now.compiled.line.now
        q.now.script.now q.now.within (recorded_of q.now) timing)) }
{
    for number in 0..TRIES {
        budget.count(1);
        if let Some(timing) = tried_at(alloc, q, part, number)? {
            return Ok(Some(timing));
        }
    }
    Ok(None)
}

// The timing of a part with this number, if it explains the record.
fn tried_at(
    alloc: Global,
    q: &Question,
    part: &[Within],
    number: u32,
) -> Result<Option<Timing>, Memory>
    requires question { IsQuestion q.now }
    ensures { IfOk result (λ found. IfSome found (λ timing. IsExplaining q.now.compiled.line.now
        q.now.script.now q.now.within (recorded_of q.now) timing)) }
{
    let timing = Timing::new(values_at(alloc, part, number)?);
    if !inside(q.compiled.line, &timing) {
        return Ok(None);
    }
    if explains(alloc, q, &timing)? {
        return Ok(Some(timing));
    }
    Ok(None)
}

/// Whether one timing alone lies in the part, and it does not explain the record.
pub fn excluded_by_play(alloc: Global, q: &Question, part: &[Within]) -> Result<bool, Memory>
    requires question { IsQuestion q.now }
    requires part { IsPart q.now.compiled.line.now part.now }
    ensures { IfOk result (λ out. IsTrue out →
        IsExcludedByPlay q.now.compiled.line.now q.now.script.now
        q.now.within (recorded_of q.now) part.now) }
{
    if !is_point(part) {
        return Ok(false);
    }
    let timing = Timing::new(least(alloc, part)?);
    if !inside(q.compiled.line, &timing) {
        return Ok(false);
    }
    let explained = explains(alloc, q, &timing)?;
    Ok(!explained)
}

// The middle of each interval; of the other numbers one of each, here and there.
fn values_at(alloc: Global, part: &[Within], number: u32) -> Result<Vec<Tick>, Memory> {
    let mut values = Vec::new(alloc);
    for param in 0..part.len() {
        values.push(value_at(part[param], param as u64, number))?;
    }
    Ok(values)
}

fn value_at(ends: Within, param: u64, number: u32) -> Tick {
    let (least, greatest) = (ends.least(), ends.greatest());
    let wide = greatest - least;
    let past = if number == 0 {
        wide / 2
    } else {
        scattered(param, number, wide)
    };
    Tick::new(least + past)
}

// A number up to this one, another for each parameter and try.
fn scattered(param: u64, number: u32, wide: u32) -> u32
    requires { wide ≤ 4000 }
    ensures { result ≤ wide }
{
    let mixed = (number as u64)
        .wrapping_mul(6364136223846793005)
        .wrapping_add(param.wrapping_mul(1442695040888963407));
    let part = (mixed >> 40) % (wide as u64 + 1);
    (part as u32).min(wide)
}

// The least number of each interval.
fn least(alloc: Global, part: &[Within]) -> Result<Vec<Tick>, Memory>
    ensures { IfOk result (λ values. AreLeast part.now values.items) }
{
    let mut values = Vec::new(alloc);
    for ends in part {
        let _greatest = ends.greatest();
        values.push(Tick::new(ends.least()))?;
    }
    Ok(values)
}

// Whether each interval is one number.
fn is_point(part: &[Within]) -> bool
    ensures { IsTrue result → AreSingle part.now }
{
    for ends in part {
        if ends.least() != ends.greatest() {
            return false;
        }
    }
    true
}
