//! The wave of one gate, over those of its arguments and the claimed keys.

ghost use Rattle.std.specs.Prelude.{◌≡◌, ◌<◌, [], length, get_or, IfOk};
ghost use Rattle.model_history.specs.Rails.{rails_delayed};
ghost use Rattle.model_line.specs.Parameters.{terminal_count, channel_count, delay_param};
ghost use Rattle.model_line.specs.Parameters.{declared_ends};
ghost use Rattle.model_line.specs.Channels.{from_of};
ghost use Rattle.net_gates.specs.{Gates.HasArguments, Named.GateNames};
ghost use Rattle.run_step.specs.GatePairs.{kind_pair};
ghost use Rattle.run_waves.specs.waves.Waves.{AreWaves, IsWaveOf};
ghost use Rattle.run_waves.specs.derived.Claims.{pairs_of, declared_world};

use crate::derived::declared::{declared_delay, declared_time};
use crate::derived::script_wave::{loss_wave, seen_wave, steady};
use crate::waves::{Runs, and, not, or, raw, seal, timer};
use model_line::{Line, Memory, Script};
use net_gates::Gate;
use std::alloc::Global;

/// The wave of a gate: its own kind over the waves of the earlier gates and the claimed keys.
#[tactic(auto, unfolding(model_logic::specs::Choice::pair_world_of, model_logic::specs::Choice::declared_box))]
pub fn gate_wave(
    alloc: Global,
    gate: &Gate,
    line: &Line,
    script: &Script,
    keys: &[Runs],
    earlier: &[Runs],
) -> Result<Runs, Memory>
    requires names { GateNames line.now gate.now }
    requires arguments { HasArguments (length earlier.now) gate.now }
    requires keys { AreWaves (terminal_count line.now) line.now.horizon keys.now }
    requires earlier { AreWaves (length earlier.now) line.now.horizon earlier.now }
    ensures { IfOk result (λ wave. IsWaveOf wave line.now.horizon
        (λ t. kind_pair (declared_world line.now script.now) (pairs_of keys.now)
        (pairs_of earlier.now) gate.now t)) }
{
    match *gate {
        Gate::Const(value) => steady(alloc, value, line.horizon),
        Gate::Seen(place) => seen_wave(alloc, script, place, line.horizon),
        Gate::Loss(channel) => loss_wave(alloc, script, channel, line.horizon),
        Gate::Raw(channel) => raw_wave(alloc, line, keys, channel),
        Gate::Not(x) => not(alloc, nth(earlier, x.0)),
        Gate::And(x, y) => and(alloc, nth(earlier, x.0), nth(earlier, y.0)),
        Gate::Or(x, y) => or(alloc, nth(earlier, x.0), nth(earlier, y.0)),
        Gate::Timer(x, pickup, dropout) => timer(
            alloc,
            nth(earlier, x.0),
            declared_time(line, pickup),
            declared_time(line, dropout),
        ),
        Gate::Seal(x, y) => seal(alloc, nth(earlier, x.0), nth(earlier, y.0)),
    }
}

/// The wave with this number.
pub fn nth<'a>(waves: &'a [Runs], number: u32) -> &'a Runs
    requires { number < length waves.now }
    ensures { result.now ≡ get_or waves.now number [] }
{
    &waves[number as usize]
}

// The terminal that sends over a channel.
fn sender(line: &Line, channel: u32) -> u32
    requires { channel < channel_count line.now }
    ensures is { result ≡ from_of line.now.channels.items channel }
    ensures exists { result < terminal_count line.now }
{
    line.channels[channel as usize].from
}

// What is received over a channel of its sender's claimed key, for all declared delays.
fn raw_wave(alloc: Global, line: &Line, keys: &[Runs], channel: u32) -> Result<Runs, Memory>
    requires exists { channel < channel_count line.now }
    requires keys { AreWaves (terminal_count line.now) line.now.horizon keys.now }
    ensures { IfOk result (λ wave. IsWaveOf wave line.now.horizon
        (λ t. rails_delayed (pairs_of keys.now (from_of line.now.channels.items channel))
        (declared_ends line.now (delay_param line.now channel)) t)) }
{
    let from = sender(line, channel);
    raw(alloc, nth(keys, from), declared_delay(line, channel))
}
