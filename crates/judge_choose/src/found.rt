//! What is searched for. Nothing is believed of what is found.

ghost use Rattle.std.specs.Prelude.{◌≡◌, ◌≤◌, ◌<◌, ◌+◌, ◌*◌, IfOk, length};
ghost use Rattle.std.specs.List.{All, slice_range};
ghost use Rattle.model_line.specs.Fits.{Fits};
ghost use Rattle.judge_choose.specs.Found.{AreFound, AreSettings};

use crate::cover::Cover;
use crate::reach::{Reach, between, over_script};
use crate::setting::{Setting, setting_at};
use model_line::{Line, Memory, Script};
use net_gates::Compiled;
use std::alloc::Global;

/// Candidates for up to 16 settings from one on: the positions around the declared one over which
/// what is held as declared is held; of these the part, up to one of the two ends, over which as
/// much as possible is held besides.
pub fn found<'a>(
    alloc: Global,
    compiled: &Compiled<'_>,
    scripts: &[Script],
    settings: &'a [Setting],
    first: usize,
) -> Result<Vec<Cover<'a>>, Memory>
    requires fit { All (Fits compiled.now.line.now) scripts.now }
    requires settings { AreSettings compiled.now.line.now settings.now }
    requires first { first < length settings.now }
    ensures { IfOk result (λ candidates.
        AreFound compiled.now.line.now settings.now first candidates.items) }
{
    let count = (settings.len() - first).min(16);
    let some = block(settings, first, count);
    let started = starts(alloc, some)?;
    let reaches = over_all(alloc, compiled, scripts, some, started)?;
    let turned = gained(alloc, compiled, scripts, some, &reaches)?;
    let mut candidates = Vec::new(alloc);
    for i in first..first + count {
        let (a, b) = ends(&reaches, &turned, i - first);
        candidates.push(between(compiled.line, setting_at(settings, i), a, b))?;
    }
    Ok(candidates)
}

fn block(settings: &[Setting], first: usize, count: usize) -> &[Setting]
    requires { first + count ≤ length settings.now }
    ensures slice { result.now ≡ slice_range settings.now first (first + count) }
    ensures count { length result.now ≡ count }
{
    &settings[first..first + count]
}

// From the declared position of each down to 0, and up to the last one.
fn starts(alloc: Global, settings: &[Setting]) -> Result<Vec<Reach>, Memory>
    requires { length settings.now ≤ 16 }
    ensures { IfOk result (λ reaches. length reaches.items ≡ 2 * length settings.now) }
{
    let mut reaches = Vec::new(alloc);
    for lane in 0..2 * settings.len() {
        let setting = &settings[lane / 2];
        let far = if lane % 2 == 0 { 0 } else { setting.last };
        reaches.push(reach(setting.declared, far))?;
    }
    Ok(reaches)
}

fn reach(anchor: u32, far: u32) -> Reach {
    Reach {
        anchor,
        near: anchor,
        far,
        held: 0,
    }
}

// Narrowed by each script.
fn over_all(
    alloc: Global,
    compiled: &Compiled<'_>,
    scripts: &[Script],
    settings: &[Setting],
    started: Vec<Reach>,
) -> Result<Vec<Reach>, Memory>
    requires fit { All (Fits compiled.now.line.now) scripts.now }
    requires settings { AreSettings compiled.now.line.now settings.now }
    requires some { 0 < length settings.now }
    requires few { length settings.now ≤ 16 }
    requires count { length started.items ≡ 2 * length settings.now }
    ensures { IfOk result (λ more. length more.items ≡ 2 * length settings.now) }
{
    let mut reaches = started;
    for s in 0..scripts.len() {
        reaches = over_script(alloc, compiled, alone(scripts, s), settings, &reaches)?;
    }
    Ok(reaches)
}

fn alone(scripts: &[Script], s: usize) -> &[Script]
    requires { s < length scripts.now }
    ensures { result.now ≡ slice_range scripts.now s (s + 1) }
{
    &scripts[s..s + 1]
}

// From each end that was reached back to the other one, where something is left as declared.
fn gained(
    alloc: Global,
    compiled: &Compiled<'_>,
    scripts: &[Script],
    settings: &[Setting],
    reaches: &[Reach],
) -> Result<Vec<Reach>, Memory>
    requires fit { All (Fits compiled.now.line.now) scripts.now }
    requires settings { AreSettings compiled.now.line.now settings.now }
    requires some { 0 < length settings.now }
    requires few { length settings.now ≤ 16 }
    requires count { length reaches.now ≡ 2 * length settings.now }
    ensures { IfOk result (λ more. length more.items ≡ 2 * length settings.now) }
{
    let turned = turned(alloc, settings, reaches)?;
    if !some_left(reaches, places(compiled.line, scripts)) {
        return Ok(turned);
    }
    over_all(alloc, compiled, scripts, settings, turned)
}

fn turned(alloc: Global, settings: &[Setting], reaches: &[Reach]) -> Result<Vec<Reach>, Memory>
    requires few { length settings.now ≤ 16 }
    requires count { length reaches.now ≡ 2 * length settings.now }
    ensures { IfOk result (λ more. length more.items ≡ 2 * length settings.now) }
{
    let mut turned = Vec::new(alloc);
    for lane in 0..2 * settings.len() {
        let low = reaches[lane / 2 * 2].far;
        let high = reaches[lane / 2 * 2 + 1].far;
        let back = if lane % 2 == 0 {
            reach(high, low)
        } else {
            reach(low, high)
        };
        turned.push(back)?;
    }
    Ok(turned)
}

// How many obligations there are.
fn places(line: &Line, scripts: &[Script]) -> usize {
    let mut count: usize = 0;
    for _ in 0..scripts.len() {
        count = count.saturating_add(line.terminals.len());
    }
    count
}

// Whether something is not held at the anchor of some reach.
fn some_left(reaches: &[Reach], places: usize) -> bool {
    reaches.iter().any(|reach| reach.held < places)
}

// The ends of a candidate.
fn ends(reaches: &[Reach], turned: &[Reach], i: usize) -> (u32, u32)
    requires place { 2 * i + 1 < length reaches.now }
    requires turned { 2 * i + 1 < length turned.now }
{
    let (low, high) = (reaches[2 * i], reaches[2 * i + 1]);
    let (down, up) = (turned[2 * i], turned[2 * i + 1]);
    if down.held.max(up.held) <= low.held {
        (low.far, high.far)
    } else if down.held >= up.held {
        (down.far, high.far)
    } else {
        (low.far, up.far)
    }
}
