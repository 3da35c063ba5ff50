//! The command `play`: the play text of a line, scripts and timings.
ghost use Rattle.std.specs.Prelude.{◌*◌, ℕ, List, OnOk, length, map};
ghost use Rattle.std.specs.List.{All};
ghost use Rattle.model_timing.specs.{Inside.IsTimingInside};
ghost use Rattle.model_timing.specs.NamedValues.{values_of};
ghost use Rattle.call_engine.specs.Calls.{AskedPlay, AskedPlays};
ghost use Rattle.call_pilot.specs.commands.Play.{IsRunText};
ghost use Rattle.call_answer.specs.Answers.{WritesAnswer};
ghost use Rattle.call_pilot.specs.{commands.Play.IsTimingText, commands.Play.Pieces, commands.Play.play_answer};
ghost use Rattle.call_pilot.specs.commands.Play.{play_asks};
ghost use Rattle.call_answer.specs.{Sinks.Writes, Sinks.sink_view, Study.IsStudy};

use crate::commands::laws::each_play_has_one_text;
use base_memory::Stopped;
use base_text::store::{PutFailed, Sink};
use call_answer::{Done, Study, put_text};
use call_engine::Engine;
use model_line::Script;
use model_timing::NamedTiming;
use net_gates::Compiled;
use std::alloc::Global;

/// Writes the play text: each timing over each script.
pub fn play<G: Engine, O: Sink>(
    alloc: Global,
    study: &Study,
    timings: &[NamedTiming],
    engine: &mut G,
    out: &mut O,
) -> Result<Done, Stopped<PutFailed>>
    requires study { IsStudy study.now }
    requires inside { All (λ timing. IsTimingInside study.now.line timing.timing) timings.now }
    ensures asked { OnOk result (play_asks study.now.line study.now.scripts.items
        (map values_of timings.now) (G.calls engine.old) (G.calls engine.new)) }
    ensures writes { WritesAnswer
        (play_answer study.now.line study.now.scripts.items (map values_of timings.now))
        (sink_view O.written O.faults out.old) (sink_view O.written O.faults out.new) result }
{
    each_play_has_one_text();
    put_text(out, b"timing,script,tick,terminal,signal,level\n")?;
    let scripts = study.scripts.as_slice();
    let compiled = Compiled {
        line: &study.line,
        net: &study.net,
    };
    write_timings(alloc, &compiled, scripts, timings, engine, out)?;
    Ok(Done::Good)
}

// Writes the rows of each timing in order.
fn write_timings<G: Engine, O: Sink>(
    alloc: Global,
    compiled: &Compiled<'_>,
    scripts: &[Script],
    timings: &[NamedTiming],
    engine: &mut G,
    out: &mut O,
) -> Result<(), Stopped<PutFailed>>
    requires inside { All (λ timing. IsTimingInside compiled.now.line.now timing.timing)
        timings.now }
    ensures asked { OnOk result (AskedPlays compiled.now.line.now
        (length timings.now * length scripts.now)
        (G.calls engine.old) (G.calls engine.new)) }
    ensures writes { (text : List ℕ) →
        Pieces (IsTimingText compiled.now.line.now scripts.now) (map values_of timings.now) text →
        Writes (sink_view O.written O.faults out.old) (sink_view O.written O.faults out.new)
        text result }
{
    for timing in timings {
        write_timing(alloc, compiled, scripts, timing, engine, out)?;
    }
    Ok(())
}

// Writes the rows of one timing, each script in order.
fn write_timing<G: Engine, O: Sink>(
    alloc: Global,
    compiled: &Compiled<'_>,
    scripts: &[Script],
    timing: &NamedTiming,
    engine: &mut G,
    out: &mut O,
) -> Result<(), Stopped<PutFailed>>
    requires inside { IsTimingInside compiled.now.line.now timing.now.timing }
    ensures asked { OnOk result (AskedPlays compiled.now.line.now (length scripts.now)
        (G.calls engine.old) (G.calls engine.new)) }
    ensures writes { (text : List ℕ) → IsTimingText compiled.now.line.now scripts.now
        (values_of timing.now) text →
        Writes (sink_view O.written O.faults out.old) (sink_view O.written O.faults out.new)
        text result }
{
    for script in scripts {
        write_run(alloc, compiled, script, timing, engine, out)?;
    }
    Ok(())
}

// Writes the rows of one timing and one script.
fn write_run<G: Engine, O: Sink>(
    alloc: Global,
    compiled: &Compiled<'_>,
    script: &Script,
    timing: &NamedTiming,
    engine: &mut G,
    out: &mut O,
) -> Result<(), Stopped<PutFailed>>
    requires inside { IsTimingInside compiled.now.line.now timing.now.timing }
    ensures asked { OnOk result (AskedPlay compiled.now.line.now (G.calls engine.old)
        (G.calls engine.new)) }
    ensures writes { (text : List ℕ) → IsRunText compiled.now.line.now (values_of timing.now)
        script.now text →
        Writes (sink_view O.written O.faults out.old) (sink_view O.written O.faults out.new)
        text result }
{
    let rows = engine.play(alloc, compiled, script, timing)?;
    put_text(out, rows.as_slice())
}
