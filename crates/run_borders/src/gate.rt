//! The wave of one gate, over those of its arguments and the keys.

ghost use Rattle.std.specs.Prelude.{◌≡◌, ◌≤◌, ◌<◌, [], length, get_or, IfOk};
ghost use Rattle.model_history.specs.Rails.{single, rails_delayed};
ghost use Rattle.model_line.specs.Parameters.{terminal_count, channel_count, delay_param, param_count};
ghost use Rattle.model_line.specs.Channels.{from_of};
ghost use Rattle.model_logic.specs.{Names.HasTime, Choice.ends_by};
ghost use Rattle.net_gates.specs.{Gates.HasArguments, Named.GateNames};
ghost use Rattle.run_step.specs.GatePairs.{kind_pair};
ghost use Rattle.run_waves.specs.waves.Waves.{AreWaves, IsWaveOf};
ghost use Rattle.run_waves.specs.derived.Claims.{pairs_of};
ghost use Rattle.run_borders.specs.LooseRuns.{CanRun, line_of, world_of, box_of};

use crate::run::LooseRun;
use crate::shown::{shown_wave, steady};
use model_line::{Line, Memory, What};
use model_logic::Time;
use net_gates::Gate;
use run_signal::Within;
use run_waves::derived::nth;
use run_waves::waves::{Runs, and, not, or, raw, seal, timer};
use std::alloc::Global;

/// The wave of a gate: its own kind over the waves of the earlier gates and the keys.
#[tactic(auto, unfolding(model_fine::specs::Loose::loose_world_of, crate::specs::LooseRuns::steady_box))]
pub(crate) fn gate_wave(
    alloc: Global,
    gate: &Gate,
    run: &LooseRun<'_>,
    keys: &[Runs],
    earlier: &[Runs],
) -> Result<Runs, Memory>
    requires run { CanRun run.now }
    requires names { GateNames (line_of run.now) gate.now }
    requires arguments { HasArguments (length earlier.now) gate.now }
    requires keys { AreWaves (terminal_count (line_of run.now)) (line_of run.now).horizon keys.now }
    requires earlier { AreWaves (length earlier.now) (line_of run.now).horizon earlier.now }
    ensures { IfOk result (λ wave. IsWaveOf wave (line_of run.now).horizon
        (λ t. kind_pair (world_of run.now) (pairs_of keys.now) (pairs_of earlier.now) gate.now t)) }
{
    let horizon = run.compiled.line.horizon;
    match *gate {
        Gate::Const(value) => steady(alloc, value, horizon),
        Gate::Seen(place) => shown_wave(alloc, run, What::Element(place), horizon),
        Gate::Loss(channel) => shown_wave(alloc, run, What::Loss(channel), horizon),
        Gate::Raw(channel) => raw_wave(alloc, run, keys, channel),
        Gate::Not(x) => not(alloc, nth(earlier, x.0)),
        Gate::And(x, y) => and(alloc, nth(earlier, x.0), nth(earlier, y.0)),
        Gate::Or(x, y) => or(alloc, nth(earlier, x.0), nth(earlier, y.0)),
        Gate::Timer(x, pickup, dropout) => timer(
            alloc,
            nth(earlier, x.0),
            time_span(run.compiled.line, run.spans, pickup),
            time_span(run.compiled.line, run.spans, dropout),
        ),
        Gate::Seal(x, y) => seal(alloc, nth(earlier, x.0), nth(earlier, y.0)),
    }
}

// The interval of a pickup or dropout.
fn time_span(line: &Line, spans: &[Within], time: Time) -> Within
    requires one_each { length spans.now ≡ param_count line.now }
    requires exists { HasTime line.now time }
    ensures { result ≡ ends_by (λ i. get_or spans.now i (single 0)) time }
{
    match time {
        Time::Zero => Within::new(0, 0),
        Time::Param(i) => spans[i as usize],
    }
}

// The terminal that sends over a channel.
fn sender(line: &Line, channel: u32) -> u32
    requires { channel < channel_count line.now }
    ensures is { result ≡ from_of line.now.channels.items channel }
    ensures exists { result < terminal_count line.now }
{
    line.channels[channel as usize].from
}

// What is received over a channel of its sender's key, for all delays within its interval.
fn raw_wave(alloc: Global, run: &LooseRun<'_>, keys: &[Runs], channel: u32) -> Result<Runs, Memory>
    requires run { CanRun run.now }
    requires exists { channel < channel_count (line_of run.now) }
    requires keys { AreWaves (terminal_count (line_of run.now)) (line_of run.now).horizon keys.now }
    ensures { IfOk result (λ wave. IsWaveOf wave (line_of run.now).horizon
        (λ t. rails_delayed (pairs_of keys.now (from_of (line_of run.now).channels.items channel))
        (get_or run.now.spans.now (delay_param (line_of run.now) channel) (single 0)) t)) }
{
    let from = sender(run.compiled.line, channel);
    let delay = run.compiled.line.delay_of(channel);
    raw(alloc, nth(keys, from), run.spans[delay as usize])
}
