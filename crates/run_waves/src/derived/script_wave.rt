//! The waves that a script tells whatever the delays.

ghost use Rattle.std.specs.Prelude.{◌≡◌, ◌≤◌, ◌<◌, IfOk};
ghost use Rattle.std.specs.List.{All};
ghost use Rattle.model_history.specs.Rails.{both};
ghost use Rattle.model_line.specs.Seen.{is_seen, is_lost};
ghost use Rattle.run_waves.specs.waves.Waves.{IsWaveOf};
ghost use Rattle.run_waves.specs.derived.Stretches.{ShowsAlike, is_of, holds};

use crate::waves::{Runs, waves_grow};
use model_line::{Memory, Place, Script, SeenSpan, What, loss, seen};
use run_signal::{Signal, Tern};
use std::alloc::Global;

/// On at each tick, or at none.
pub fn steady(alloc: Global, value: bool, horizon: u32) -> Result<Runs, Memory>
    requires some { 1 ≤ horizon }
    requires limited { horizon ≤ 4000 }
    ensures { IfOk result (λ wave. IsWaveOf wave horizon (λ t. both value)) }
{
    waves_grow();
    let mut wave = Runs::new(alloc);
    wave.push(Tern::known(value), horizon)?;
    Ok(wave)
}

/// When the script shows the element.
pub fn seen_wave(alloc: Global, script: &Script, place: Place, horizon: u32) -> Result<Runs, Memory>
    requires { horizon ≤ 4000 }
    ensures { IfOk result (λ wave.
        IsWaveOf wave horizon (λ t. both (is_seen script.now.spans.items place t))) }
{
    wave_of(alloc, script, What::Element(place), horizon)
}

/// When the script has the channel lost.
pub fn loss_wave(alloc: Global, script: &Script, channel: u32, horizon: u32) -> Result<Runs, Memory>
    requires { horizon ≤ 4000 }
    ensures { IfOk result (λ wave.
        IsWaveOf wave horizon (λ t. both (is_lost script.now.spans.items channel t))) }
{
    wave_of(alloc, script, What::Loss(channel), horizon)
}

// When the script has this.
fn wave_of(alloc: Global, script: &Script, what: What, horizon: u32) -> Result<Runs, Memory>
    requires { horizon ≤ 4000 }
    ensures { IfOk result (λ wave.
        IsWaveOf wave horizon (λ t. both (holds script.now.spans.items what t))) }
{
    waves_grow();
    let mut wave = Runs::new(alloc);
    'stretches: while wave.len() < horizon {
        let t = wave.len();
        let end = alike_until(script.spans.as_slice(), what, t, horizon);
        wave.push(Tern::known(holds(script, what, t)), end - t)?;
    }
    Ok(wave)
}

// Whether the script has this at a tick.
fn holds(script: &Script, what: What, t: u32) -> bool
    ensures { result ≡ holds script.now.spans.items what t }
{
    match what {
        What::Element(place) => seen(script, place, t),
        What::Loss(channel) => loss(script, channel, t),
    }
}

// Until when no span of this begins or ends after that tick.
fn alike_until(spans: &[SeenSpan], what: What, t: u32, horizon: u32) -> u32
    requires { t < horizon }
    ensures later { t < result }
    ensures inside { result ≤ horizon }
    ensures alike { All (ShowsAlike what t result) spans.now }
{
    let mut end = horizon;
    for i in 0..spans.len() {
        end = sooner(spans[i], what, t, end);
    }
    end
}

// Until when a span, if it is of this, neither begins nor ends after that tick, and at most until
// that end.
fn sooner(span: SeenSpan, what: What, t: u32, end: u32) -> u32
    requires { t < end }
    ensures later { t < result }
    ensures inside { result ≤ end }
    ensures alike { ShowsAlike what t result span }
{
    if !is_of(span.what, what) {
        end
    } else if t < span.from {
        span.from.min(end)
    } else if t < span.to {
        span.to.min(end)
    } else {
        end
    }
}

// Whether a span that is of the one is of the other.
fn is_of(one: What, other: What) -> bool
    ensures { result ≡ is_of other one }
{
    match (one, other) {
        (What::Element(seen), What::Element(place)) => seen == place,
        (What::Loss(lost), What::Loss(channel)) => lost == channel,
        _ => false,
    }
}
