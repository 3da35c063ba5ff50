//! The waves of what is shown, for certain and perhaps.

ghost use Rattle.std.specs.Prelude.{◌≡◌, ◌≤◌, ◌<◌, ℕ, IfOk};
ghost use Rattle.model_history.specs.Rails.{both};
ghost use Rattle.run_waves.specs.{waves.Waves.IsWaveOf, derived.Stretches.holds};
ghost use Rattle.run_step.specs.Quiet.{ScriptKeeps};
ghost use Rattle.run_borders.specs.LooseRuns.{CanRun, line_of};
ghost use Rattle.run_borders.specs.LooseWaves.{shown_rails};

use crate::run::LooseRun;
use model_line::{Memory, Script, What, loss, seen};
use run_signal::{Signal, Tern};
use run_step::{all_stay, lesser};
use run_waves::waves::{Runs, waves_grow};
use std::alloc::Global;

/// On at each tick, or at none.
pub(crate) fn steady(alloc: Global, value: bool, horizon: u32) -> Result<Runs, Memory>
    requires some { 1 ≤ horizon }
    requires limited { horizon ≤ 4000 }
    ensures { IfOk result (λ wave. IsWaveOf wave horizon (λ t. both value)) }
{
    waves_grow();
    let mut wave = Runs::new(alloc);
    wave.push(Tern::known(value), horizon)?;
    Ok(wave)
}

/// When an element is seen, or a channel lost: for certain where the one script has it, and perhaps
/// where the other does.
pub(crate) fn shown_wave(
    alloc: Global,
    run: &LooseRun<'_>,
    what: What,
    horizon: u32,
) -> Result<Runs, Memory>
    requires run { CanRun run.now }
    requires limited { horizon ≤ 4000 }
    ensures { IfOk result (λ wave. IsWaveOf wave horizon (shown_rails run.now what)) }
{
    waves_grow();
    let mut wave = Runs::new(alloc);
    'stretches: while wave.len() < horizon {
        let t = wave.len();
        let must = holds(run.certain, what, t);
        let may = holds(run.perhaps, what, t);
        let count = lesser(both_stay(run, t), horizon - t);
        wave.push(Tern::from_rails(must, may), count)?;
    }
    Ok(wave)
}

// For how many ticks from this one on both scripts show the same.
fn both_stay(run: &LooseRun<'_>, t: u32) -> u32
    ensures some { 1 ≤ result }
    ensures limited { result ≤ 4000 }
    ensures certain { ScriptKeeps run.now.certain.now.spans.items t result }
    ensures perhaps { ScriptKeeps run.now.perhaps.now.spans.items t result }
{
    let certain = script_stays(run.certain, t);
    let perhaps = script_stays(run.perhaps, t);
    lesser(certain, perhaps)
}

// For how many ticks from this one on a script shows the same.
fn script_stays(script: &Script, t: u32) -> u32
    ensures some { 1 ≤ result }
    ensures limited { result ≤ 4000 }
    ensures keeps { ScriptKeeps script.now.spans.items t result }
{
    all_stay(script.spans.as_slice(), t)
}

// Whether the spans have this at a tick.
fn holds(script: &Script, what: What, t: u32) -> bool
    ensures { result ≡ holds script.now.spans.items what t }
{
    match what {
        What::Element(place) => seen(script, place, t),
        What::Loss(channel) => loss(script, channel, t),
    }
}
