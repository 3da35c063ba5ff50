//! The delays of channels, tick after tick.

ghost use Rattle.std.specs.Prelude.{◌≡◌, ℕ, ◌<◌, ◌≤◌, ◌+◌, length, IfOk, IsTrue};
ghost use Rattle.std.specs.Prelude.{slice_get, Some};
ghost use Rattle.model_line.specs.{Channels.from_of, Parameters.channel_count, Parameters.param_count};
ghost use Rattle.model_line.specs.Parameters.{delay_param};
ghost use Rattle.model_timing.specs.Timing.{ascend};
ghost use Rattle.run_step.specs.Inputs.{AreDelays, AreSet, AreSetUntil, DelayStands};
ghost use Rattle.run_step.specs.{Inputs.DelaysStand, Runs.CanRun};
ghost use Rattle.run_step.specs.declared.delays.Delay.{Delay};

use crate::minimum::lesser;
use crate::run::Run;
use crate::steps::{passed_steps, steps_stay, value_at};
use model_line::{Line, Memory};
use run_signal::Signal;
use std::alloc::Global;

/// A channel's delay: the terminal that sends, the delay's parameter, its span at the tick, a number
/// of ticks before which nothing arrives, and the tick at which the span may be another one.
#[derive(Clone, Copy)]
pub struct Delay<P: Copy> {
    pub from: u32,
    pub param: u32,
    pub span: P,
    pub soonest: u32,
    pub until: u32,
}

/// The delay of each channel, and a tick before which none of them is over.
#[derive(Drop)]
pub struct Delays<P: Copy> {
    pub list: Vec<Delay<P>>,
    pub until: u32,
}

/// The own delay of each channel.
pub fn fresh_delays<V: Signal>(
    alloc: Global,
    line: &Line,
    spans: &[V::Span],
) -> Result<Vec<Delay<V::Span>>, Memory>
    requires spans { length spans.now ≡ param_count line.now }
    ensures delays { IfOk result (λ delays. AreDelays line.now delays.items) }
    ensures over { IfOk result (λ delays. (c : ℕ) (d : Delay V.Span) →
        slice_get delays.items c ≡ Some d → d.until ≡ 0) }
{
    let mut delays = Vec::new(alloc);
    for channel in 0..line.channels.len() {
        let delay = own_delay::<V>(line, spans, channel);
        delays.push(delay)?;
    }
    Ok(delays)
}

// The own delay of a channel, before it is set at a tick.
fn own_delay<V: Signal>(line: &Line, spans: &[V::Span], channel: usize) -> Delay<V::Span>
    requires spans { length spans.now ≡ param_count line.now }
    requires channel { channel < channel_count line.now }
    ensures from { result.from ≡ from_of line.now.channels.items channel }
    ensures param { result.param ≡ delay_param line.now channel }
    ensures there { result.param < param_count line.now }
    ensures over { result.until ≡ 0 }
{
    let param = line.delay_of(channel as u32);
    Delay {
        from: line.channels[channel].from,
        param,
        span: spans[param as usize],
        soonest: 1,
        until: 0,
    }
}

/// Sets each delay that is over to its span at the tick, where one may be.
pub fn renew_delays<V: Signal>(run: &Run<'_, V::Span>, delays: &mut Delays<V::Span>, t: u32)
    requires can { CanRun V.signal run.now }
    requires early { t < 4000 }
    requires delays { AreDelays run.now.compiled.now.line.now delays.old.list.items }
    requires stand { DelaysStand V.signal run.now t delays.old.list.items }
    requires until { AreSetUntil delays.old.until delays.old.list.items }
    ensures delays { AreDelays run.now.compiled.now.line.now delays.new.list.items }
    ensures stand { DelaysStand V.signal run.now t delays.new.list.items }
    ensures set { AreSet t delays.new.list.items }
    ensures until { AreSetUntil delays.new.until delays.new.list.items }
{
    if t < delays.until {
        return;
    }
    set_delays::<V>(run, &mut delays.list, t);
    delays.until = first_over(&delays.list);
}

// A tick before which none of the delays is over.
fn first_over<P: Copy>(delays: &[Delay<P>]) -> u32
    ensures { AreSetUntil result delays.now }
{
    let mut until = 4000;
    for channel in 0..delays.len() {
        until = lesser(until, delays[channel].until);
    }
    until
}

/// Sets each delay that is over to its span at the tick.
pub fn set_delays<V: Signal>(run: &Run<'_, V::Span>, delays: &mut Vec<Delay<V::Span>>, t: u32)
    requires can { CanRun V.signal run.now }
    requires early { t < 4000 }
    requires delays { AreDelays run.now.compiled.now.line.now delays.old.items }
    requires stand { DelaysStand V.signal run.now t delays.old.items }
    ensures delays { AreDelays run.now.compiled.now.line.now delays.new.items }
    ensures stand { DelaysStand V.signal run.now t delays.new.items }
    ensures set { AreSet t delays.new.items }
{
    for channel in 0..delays.len() {
        set_delay::<V>(run, &mut delays[channel], t);
    }
}

// Sets a delay that is over to its span at the tick.
fn set_delay<V: Signal>(run: &Run<'_, V::Span>, delay: &mut Delay<V::Span>, t: u32)
    requires exists { delay.old.param < length run.now.spans.now }
    requires ascending { IsTrue (ascend run.now.steps.now) }
    requires early { t < 4000 }
    requires stands { DelayStands V.signal run.now t delay.old }
    ensures from { delay.new.from ≡ delay.old.from }
    ensures param { delay.new.param ≡ delay.old.param }
    ensures stands { DelayStands V.signal run.now t delay.new }
    ensures set { t < delay.new.until }
{
    if t < delay.until {
        return;
    }
    let passed = passed_steps(run.steps, delay.param, t);
    let own = run.spans[delay.param as usize];
    let span = value_at(run.steps, own, delay.param, t, passed);
    let stays = steps_stay(run.steps, delay.param, t, passed);
    delay.span = span;
    delay.soonest = soonest::<V>(&span);
    delay.until = t + lesser(stays, 4000);
}

// Before how many ticks, at least 1, nothing arrives in any lane if each of its delays is at least 1.
fn soonest<V: Signal>(span: &V::Span) -> u32
    ensures some { 1 ≤ result }
    ensures limited { result ≤ 4000 }
    ensures before { (lane : ℕ) → lane < V.signal.lanes → 1 ≤ (V.signal.ends span.now lane).least →
        result ≤ (V.signal.ends span.now lane).least }
{
    let mut least = 4000;
    for lane in 0..V::LANES {
        least = lesser(least, V::least(span, lane).max(1));
    }
    least
}
