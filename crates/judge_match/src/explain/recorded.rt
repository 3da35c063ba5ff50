//! What is kept of a record.

ghost use Rattle.std.specs.Prelude.{◌≡◌, ◌≤◌, ◌<◌, ℕ, IfOk, IfSome, Some, length, slice_get};
ghost use Rattle.model_line.specs.declared.line.Line.{Line};
ghost use Rattle.model_line.specs.Parameters.{terminal_count};
ghost use Rattle.run_waves.specs.waves.Waves.{AreWaves, wave_at};
ghost use Rattle.run_waves.specs.derived.Claims.{pairs_of};
ghost use Rattle.judge_match.specs.explain.Changes.{StaysAround};
ghost use Rattle.judge_match.specs.explain.Asked.{AreLevels, AreRecorded, IsRecorded, level_in};

use crate::explain::changes::changes;
use model_line::{Line, Memory};
use run_signal::Signal;
use run_waves::derived::nth;
use run_waves::waves::Runs;
use std::alloc::Global;

/// The ticks at which a signal of a record changes, and for each tick the level that it keeps
/// around it, if it keeps one.
#[derive(Drop)]
pub struct Recorded {
    pub changes: Vec<u32>,
    pub stays: Vec<Option<bool>>,
}

/// What is kept of each of these waves.
pub fn kept_of(
    alloc: Global,
    line: &Line,
    within: u32,
    waves: &[Runs],
) -> Result<Vec<Recorded>, Memory>
    requires { AreWaves (terminal_count line.now) line.now.horizon waves.now }
    ensures { IfOk result (λ all. AreRecorded line.now within
        (λ k t. (pairs_of waves.now k t).must) all.items) }
{
    let mut all = Vec::new(alloc);
    for k in 0..waves.len() {
        let wave = nth(waves, k as u32);
        all.push(kept_of_wave(alloc, line, within, wave)?)?;
    }
    Ok(all)
}

fn kept_of_wave(alloc: Global, line: &Line, within: u32, wave: &Runs) -> Result<Recorded, Memory>
    requires { length wave.now ≡ line.now.horizon }
    ensures { IfOk result (λ r. IsRecorded within line.now.horizon
        (λ t. (wave_at wave.now t).must) r) }
{
    let levels = wave_levels(alloc, wave)?;
    let changes = changes(alloc, &levels)?;
    let stays = stays(alloc, within, &levels)?;
    Ok(Recorded { changes, stays })
}

// The levels of a wave.
fn wave_levels(alloc: Global, wave: &Runs) -> Result<Vec<bool>, Memory>
    ensures levels { IfOk result (λ levels.
        AreLevels (length wave.now) (λ t. (wave_at wave.now t).must) levels.items) }
    ensures short { length wave.now ≤ 4000 }
{
    let mut levels = Vec::new(alloc);
    for t in 0..wave.len() {
        levels.push(wave.at(t).must(0))?;
    }
    Ok(levels)
}

// The level that is kept around each tick, if one is.
fn stays(alloc: Global, within: u32, levels: &[bool]) -> Result<Vec<Option<bool>>, Memory>
    requires { length levels.now ≤ 4000 }
    ensures count { IfOk result (λ stays. length stays.items ≡ length levels.now) }
    ensures each { IfOk result (λ stays. (t : ℕ) (level : _) →
        slice_get stays.items t ≡ Some (Some level) →
        StaysAround within (length levels.now) (level_in levels.now) t level) }
{
    let mut stays = Vec::new(alloc);
    for t in 0..levels.len() {
        stays.push(stays_at(within, levels, t as u32))?;
    }
    Ok(stays)
}

// The level that is kept around a tick, if one is.
fn stays_at(within: u32, levels: &[bool], t: u32) -> Option<bool>
    requires short { length levels.now ≤ 4000 }
    requires tick { t < length levels.now }
    ensures { IfSome result (λ level.
        StaysAround within (length levels.now) (level_in levels.now) t level) }
{
    let from = t.saturating_sub(within);
    let to = t.saturating_add(within);
    let level = t >= within && levels[from as usize];
    for r in from..levels.len() as u32 {
        if r <= to && levels[r as usize] != level {
            return None;
        }
    }
    Some(level)
}
