//! How far ranges reach, searched script by script. Nothing is believed of what is found here.

ghost use Rattle.std.specs.Prelude.{◌≡◌, ◌≤◌, ◌<◌, ◌+◌, ◌*◌, IfOk, length};
ghost use Rattle.std.specs.List.{All};
ghost use Rattle.model_line.specs.Fits.{Fits};
ghost use Rattle.judge_choose.specs.{Found.AreSettings, Told.AreCovers};
ghost use Rattle.judge_choose.specs.Positions.{IsCover, IsSetting};

use crate::cover::Cover;
use crate::setting::{Setting, setting_at};
use crate::table::told;
use model_line::{Line, Memory, Script};
use net_gates::Compiled;
use run_signal::{Lanes64, Signal};
use std::alloc::Global;

/// From the anchor, a position, towards another: what is held at the anchor is held on the way to
/// `near`, so far as scripts were asked, and `far` is the furthest that may be.
#[derive(Clone, Copy)]
pub struct Reach {
    pub anchor: u32,
    pub near: u32,
    pub far: u32,
    pub held: usize,
}

/// Two reaches of each setting, narrowed by one script, the only one of the list.
pub fn over_script(
    alloc: Global,
    compiled: &Compiled<'_>,
    script: &[Script],
    settings: &[Setting],
    reaches: &[Reach],
) -> Result<Vec<Reach>, Memory>
    requires fit { All (Fits compiled.now.line.now) script.now }
    requires settings { AreSettings compiled.now.line.now settings.now }
    requires some { 0 < length settings.now }
    requires few { length settings.now ≤ 16 }
    requires count { length reaches.now ≡ 2 * length settings.now }
    ensures { IfOk result (λ more. length more.items ≡ 2 * length settings.now) }
{
    let mut narrowed = step(alloc, compiled, script, settings, reaches, false)?;
    for _ in 0..12 {
        if some_open(&narrowed) {
            narrowed = step(alloc, compiled, script, settings, &narrowed, true)?;
        }
    }
    closed(alloc, &narrowed)
}

// Whether some reach is open.
fn some_open(reaches: &[Reach]) -> bool {
    reaches.iter().any(|reach| reach.near != reach.far)
}

// Each at the nearer of its ends.
fn closed(alloc: Global, reaches: &[Reach]) -> Result<Vec<Reach>, Memory>
    ensures { IfOk result (λ more. length more.items ≡ length reaches.now) }
{
    let mut more = Vec::with_capacity(alloc, reaches.len())?;
    for i in 0..reaches.len() {
        let reach = reaches[i];
        more.push(Reach {
            far: reach.near,
            ..reach
        })?;
    }
    Ok(more)
}

// By what is asked with each reach to its far end, or to its middle.
fn step(
    alloc: Global,
    compiled: &Compiled<'_>,
    script: &[Script],
    settings: &[Setting],
    reaches: &[Reach],
    halve: bool,
) -> Result<Vec<Reach>, Memory>
    requires fit { All (Fits compiled.now.line.now) script.now }
    requires settings { AreSettings compiled.now.line.now settings.now }
    requires some { 0 < length settings.now }
    requires few { length settings.now ≤ 16 }
    requires count { length reaches.now ≡ 2 * length settings.now }
    ensures { IfOk result (λ more. length more.items ≡ 2 * length settings.now) }
{
    let covers = reach_covers(alloc, compiled.line, settings, reaches, halve)?;
    let bits = told(alloc, compiled, script, &covers)?;
    let mut more = Vec::with_capacity(alloc, reaches.len())?;
    for i in 0..reaches.len() {
        more.push(narrowed(reaches[i], &bits, 2 * i as u32, halve))?;
    }
    Ok(more)
}

// A reach by what its two lanes tell.
fn narrowed(reach: Reach, bits: &[Lanes64], lane: u32, halve: bool) -> Reach
    requires { lane + 1 < 64 }
{
    let stay = all_stay(bits, lane);
    if halve {
        let mid = middle(reach.near, reach.far);
        if stay {
            return Reach { near: mid, ..reach };
        }
        return Reach { far: mid, ..reach };
    }
    let near = if stay { reach.far } else { reach.anchor };
    Reach {
        near,
        held: reach.held.saturating_add(count_on(bits, lane)),
        ..reach
    }
}

// Whether all that are on in a lane are on in the next one.
fn all_stay(bits: &[Lanes64], lane: u32) -> bool
    requires { lane + 1 < 64 }
{
    for i in 0..bits.len() {
        if bits[i].must(lane) && !bits[i].must(lane + 1) {
            return false;
        }
    }
    true
}

// How many are on in a lane.
fn count_on(bits: &[Lanes64], lane: u32) -> usize
    requires { lane < 64 }
{
    let mut count: usize = 0;
    for i in 0..bits.len() {
        if bits[i].must(lane) {
            count = count.saturating_add(1);
        }
    }
    count
}

fn middle(a: u32, b: u32) -> u32 {
    if a <= b {
        a + (b - a) / 2
    } else {
        b + (a - b) / 2
    }
}

// Of each reach two covers: its anchor, and from it to the far end, or to the middle.
fn reach_covers<'a>(
    alloc: Global,
    line: &Line,
    settings: &'a [Setting],
    reaches: &[Reach],
    halve: bool,
) -> Result<Vec<Cover<'a>>, Memory>
    requires settings { AreSettings line.now settings.now }
    requires few { length settings.now ≤ 16 }
    requires count { length reaches.now ≡ 2 * length settings.now }
    ensures count { IfOk result (λ covers. length covers.items ≡ 4 * length settings.now) }
    ensures covers { IfOk result (λ covers. AreCovers line.now covers.items) }
{
    let mut covers = Vec::new(alloc);
    for lane in 0..4 * settings.len() {
        let reach = reaches[lane / 2];
        let to = if lane % 2 == 0 {
            reach.anchor
        } else if halve {
            middle(reach.near, reach.far)
        } else {
            reach.far
        };
        covers.push(cover_between(line, settings, lane / 4, reach.anchor, to))?;
    }
    Ok(covers)
}

// The cover between two positions of a setting, in either order, none past the last one.
fn cover_between<'a>(line: &Line, settings: &'a [Setting], i: usize, a: u32, b: u32) -> Cover<'a>
    requires settings { AreSettings line.now settings.now }
    requires place { i < length settings.now }
    ensures { IsCover line.now result }
{
    let _line = line;
    between(line, setting_at(settings, i), a, b)
}

/// The same of one setting.
pub fn between<'a>(line: &Line, setting: &'a Setting, a: u32, b: u32) -> Cover<'a>
    requires { IsSetting line.now setting.now }
    ensures cover { IsCover line.now result }
    ensures setting { result.setting.now ≡ setting.now }
{
    let _line = line;
    let (low, high) = if a <= b { (a, b) } else { (b, a) };
    Cover {
        setting,
        first: low.min(setting.last),
        last: high.min(setting.last),
    }
}
