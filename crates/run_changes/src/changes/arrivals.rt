//! For how long what arrives over a channel stays the same, if the key is held on.

ghost use Rattle.std.specs.Prelude.{◌≡◌, ℕ, ◌<◌, ◌≤◌, ◌-◌, length};
ghost use Rattle.model_history.specs.{Rails.Rails, Recorded.first_ticks};
ghost use Rattle.run_signal.specs.Lanes.{in_lane};
ghost use Rattle.model_line.specs.Parameters.{channel_count};
ghost use Rattle.model_logic.specs.PairMean.{PairWorld, PairSignals};
ghost use Rattle.run_step.specs.{Inputs.AreDelaysFrom, Inputs.AreSet, Moments.CanHear};
ghost use Rattle.run_step.specs.{Lasts.ArrivesAs, Lasts.EndStays, Lasts.RawLasts};
ghost use Rattle.run_step.specs.Ticks.{KeysSent};

use model_history::laws::history_laws;
use run_signal::{Lanes64, Signal, Track};
use run_step::{Moment, lesser};

/// Until when the same arrives over a channel as at the tick, if the key is held on from the tick
/// before it, as far as it arrives by then.
pub fn arrives_until<V: Signal>(moment: &Moment<'_, V, V::Span>, channel: u32) -> u32
    requires exists { channel < channel_count moment.now.line.now }
    requires moment { CanHear V.signal moment.now }
    requires set { AreSet moment.now.t moment.now.delays.now }
    ensures later { moment.now.t < result }
    ensures limited { result ≤ 8000 }
    ensures lasts { (lane : ℕ) (w : PairWorld) (keys : PairSignals) → lane < V.signal.lanes →
        AreDelaysFrom V.signal.ends lane moment.now.delays.now w moment.now.t →
        KeysSent V.signal.rails lane keys moment.now.t moment.now.sent.now →
        RawLasts (keys (w.from channel)) (w.delay channel) (moment.now.t - 1) moment.now.t
        (result - moment.now.t) }
{
    let delay = &moment.delays[channel as usize];
    let key = &moment.sent[delay.from as usize];
    let stays = arrival_stays(key, &delay.span, moment.t);
    lesser(moment.t + stays, delay.until)
}

// For how many ticks, up to 4,000, the same arrives of a key, through a delay within the span. One
// lane is asked of those with the same ends; an end that the last one has too is not looked for
// again.
fn arrival_stays<V: Signal>(key: &Track<V>, delay: &V::Span, t: u32) -> u32
    requires later { (lane : ℕ) → lane < V.signal.lanes → 1 ≤ (V.signal.ends delay.now lane).least }
    requires known { length key.now.keys ≡ t }
    requires early { t < 4000 }
    ensures some { 1 ≤ result }
    ensures limited { result ≤ 4000 }
    ensures keeps { (lane : ℕ) (u : ℕ → Rails) → lane < V.signal.lanes →
        in_lane V.signal.rails lane key.now.keys ≡ first_ticks u t →
        ArrivesAs u (V.signal.ends delay.now lane) (t - 1) t result }
{
    history_laws();
    let lanes = V::LANES;
    let mut stays = 4000;
    let mut last = 0;
    let mut left = Lanes64::known(true);
    let mut lane = 0;
    'next_span: while lane < lanes {
        let least = V::least(delay, lane);
        let greatest = V::greatest(delay, lane);
        let first = sooner(key, least, last, t, stays);
        stays = sooner(key, greatest, least, t, first);
        last = greatest;
        let alike = V::alike(delay, lane);
        left = left.without(alike);
        lane = left.first();
    }
    stays
}

// For how many ticks, up to so many, the key so many ticks ago stays the same too. If it was looked
// for last, it does for all of them.
fn sooner<V: Signal>(key: &Track<V>, c: u32, last: u32, t: u32, stays: u32) -> u32
    requires later { 1 ≤ c }
    requires known { length key.now.keys ≡ t }
    requires early { t < 4000 }
    requires some { 1 ≤ stays }
    ensures some { 1 ≤ result }
    ensures limited { result ≤ stays }
    ensures keeps { (c ≡ last → EndStays V.signal key.now.keys t c stays) →
        EndStays V.signal key.now.keys t c result }
{
    if c == last {
        return stays;
    }
    lesser(stays, end_stays(key, c, t))
}

// For how many ticks the key so many ticks ago stays the same.
fn end_stays<V: Signal>(key: &Track<V>, c: u32, t: u32) -> u32
    requires later { 1 ≤ c }
    requires known { length key.now.keys ≡ t }
    requires early { t < 4000 }
    ensures some { 1 ≤ result }
    ensures keeps { EndStays V.signal key.now.keys t c result }
{
    history_laws();
    if t < c {
        return c - t;
    }
    let end = key.stays_until(t - c);
    if end >= t { 4000 } else { end - (t - c) }
}
