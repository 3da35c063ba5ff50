//! A run as a value change dump.

ghost use Rattle.std.specs.Prelude.{◌≡◌, ◌++◌, IfOk, OnOk};
ghost use Rattle.model_logic.specs.Histories.{History, IsLineHistory};
ghost use Rattle.model_timing.specs.{Inside.IsTimingInside, Choice.timing_choice};
ghost use Rattle.run_step.specs.{Played.is_on, Runs.AreWavesOf};
ghost use Rattle.draw_gates.specs.{dump.Dump.dump_text, dump.GateValues.gate_levels};

use crate::dump::changes::{Extent, put_changes};
use crate::dump::play::play_waves;
use crate::dump::put::put;
use crate::dump::variables::put_declarations;
use model_line::{Memory, Name, Script};
use model_timing::NamedTiming;
use net_gates::Compiled;
use run_signal::Level;
use run_ticks::net::Waves;
use std::alloc::Global;

/// The value change dump of a timing and a script: every gate of the net at every tick, as the
/// logic of the line has it. Its times are in microseconds. IEEE 1364 has the format.
pub fn vcd_text(
    alloc: Global,
    compiled: &Compiled<'_>,
    script: &Script,
    timing: &NamedTiming,
) -> Result<Vec<u8>, Memory>
    requires inside { IsTimingInside compiled.now.line.now timing.now.timing }
    ensures { IfOk result (λ text. (h : History) →
        IsLineHistory compiled.now.line.now script.now
        (timing_choice compiled.now.line.now timing.now.timing) h →
        text.items ≡ dump_text timing.now.name script.now.name compiled.now.line.now
        compiled.now.net.now
        (gate_levels compiled.now.line.now script.now
        (timing_choice compiled.now.line.now timing.now.timing) h compiled.now.net.now)) }
{
    let waves = play_waves(alloc, compiled, script, timing)?;
    value_change_dump(alloc, timing.name, script.name, compiled, &waves)
}

/// The value change dump of a run.
#[tactic(auto, unfolding(crate::specs::dump::Dump::dump_text))]
pub fn value_change_dump(
    alloc: Global,
    timing: Name,
    script: Name,
    compiled: &Compiled<'_>,
    waves: &Waves<Level>,
) -> Result<Vec<u8>, Memory>
    requires of_net { AreWavesOf compiled.now.net.now compiled.now.line.now waves.now }
    ensures { IfOk result (λ text. text.items
        ≡ dump_text timing script compiled.now.line.now compiled.now.net.now (is_on waves.now)) }
{
    let extent = Extent {
        tick_us: compiled.line.tick_us,
        horizon: compiled.line.horizon,
        gates: compiled.net.len(),
    };
    let mut text = Vec::from_slice(alloc, b"$comment timing ")?;
    put(&mut text, timing.bytes())?;
    put(&mut text, b", script ")?;
    put(&mut text, script.bytes())?;
    put(&mut text, b" $end\n$timescale 1 us $end\n")?;
    put_declarations(alloc, &mut text, compiled)?;
    put(&mut text, b"$enddefinitions $end\n")?;
    put_changes(alloc, &mut text, waves, extent)?;
    Ok(text)
}
