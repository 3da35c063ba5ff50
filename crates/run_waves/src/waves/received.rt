//! What is received of a key wave.
#![tactic(auto)]

ghost use Rattle.std.specs.Prelude.{◌≡◌, ◌↔◌, ◌+◌, ◌<◌, ◌≤◌, ◌++◌, ℕ, List, IsTrue, length, IfOk};
ghost use Rattle.model_history.specs.{Comes.AllCome, Comes.SomeComes, Rails.rails_delayed, Rails.single};
ghost use Rattle.run_signal.specs.{declared.tern.Tern.Tern, Spans.ends_of, Terns.tern_rails};
ghost use Rattle.run_waves.specs.waves.Waves.{wave_at, IsWaveOf, IsSameUntil, ArrivesAlike};

use crate::waves::cursor::Cursor;
use crate::waves::first::first_from;
use crate::waves::runs::{Runs, Stretch};
use model_history::delay_laws::{
    delays_are_their_facts, delays_read_earlier_ticks, delays_stay_sound, one_delay_reads_one_tick,
};
use model_line::Memory;
use run_signal::{Signal, Tern, Within};
use std::alloc::Global;

/// What is received of a key at each tick, where what arrives at a tick was delayed by a number of
/// ticks within the span.
pub fn raw(alloc: Global, key: &Runs, delay: Within) -> Result<Runs, Memory>
    requires { 1 ≤ delay.least }
    ensures { IfOk result (λ wave.
        IsWaveOf wave (length key.now) (λ t. rails_delayed (wave_at key.now) delay t)) }
{
    let least = delay.least();
    let greatest = delay.greatest();
    if least == greatest {
        raw_of_one(alloc, key, least)
    } else {
        raw_of_some(alloc, key, delay)
    }
}

// What is received of a key after one delay: its runs, so many ticks later.
fn raw_of_one(alloc: Global, key: &Runs, delay: u32) -> Result<Runs, Memory>
    requires { delay ≤ 4000 }
    ensures { IfOk result (λ wave.
        IsWaveOf wave (length key.now) (λ t. rails_delayed (wave_at key.now) (single delay) t)) }
{
    let mut wave = Runs::new(alloc);
    let mut keys = key.cursor();
    'stretches: while wave.len() < key.len() {
        let t = wave.len();
        let run = arrived(&mut keys, delay, t);
        wave.push(run.level, run.end.min(key.len()) - t)?;
    }
    Ok(wave)
}

// What arrives at a tick after one delay, and until when it does.
fn arrived(key: &mut Cursor<'_>, delay: u32, t: u32) -> Stretch
    requires known { t < length key.old + delay }
    requires limited { delay ≤ 4000 }
    ensures key { key.new ≡ key.old }
    ensures later { t < result.end }
    ensures same { (k : ℕ) → t ≤ k → k < result.end →
        rails_delayed (wave_at key.old) (single delay) k ≡ tern_rails result.level }
{
    one_delay_reads_one_tick();
    if t < delay {
        let level = Tern::known(false);
        return Stretch { level, end: delay };
    }
    let run = key.stretch(t - delay);
    Stretch {
        level: run.level,
        end: run.end + delay,
    }
}

// What is received of a key after delays within a span.
fn raw_of_some(alloc: Global, key: &Runs, delay: Within) -> Result<Runs, Memory>
    requires { 1 ≤ delay.least }
    ensures { IfOk result (λ wave.
        IsWaveOf wave (length key.now) (λ t. rails_delayed (wave_at key.now) delay t)) }
{
    let mut wave = Runs::new(alloc);
    let mut newest = key.cursor();
    let mut oldest = key.cursor();
    'stretches: while wave.len() < key.len() {
        let t = wave.len();
        let end = steady_until(&mut newest, &mut oldest, delay, t).min(key.len());
        let level = received(&oldest, delay, t);
        wave.push(level, end - t)?;
    }
    Ok(wave)
}

/// What is received at a tick. At the tick after the key's last it rests on that key alone.
pub fn raw_at(key: &Runs, delay: Within, t: u32) -> Tern
    requires later { 1 ≤ delay.least }
    requires known { t ≤ length key.now }
    ensures received { tern_rails result ≡ rails_delayed (wave_at key.now) delay t }

    // It is the same whatever the key does later.
    ensures longer { (more : List Tern) →
        rails_delayed (wave_at (key.now ++ more)) delay t ≡ tern_rails result }
{
    delays_read_earlier_ticks();
    received(&key.cursor(), delay, t)
}

/// Until when the same is received as at that tick: the first tick after it at which that differs,
/// or at which a longer key would tell.
pub fn raw_until(key: &Runs, delay: Within, t: u32) -> u32
    requires later { 1 ≤ delay.least }
    requires known { t ≤ length key.now }
    ensures same { IsSameUntil (rails_delayed (wave_at key.now) delay) t
        (length key.now + delay.least) result }

    // It is the same until then whatever the key does later.
    ensures longer { (more : List Tern) (k : ℕ) → t ≤ k → k < result →
        rails_delayed (wave_at (key.now ++ more)) delay k
        ≡ rails_delayed (wave_at key.now) delay t }
{
    delays_read_earlier_ticks();
    let last = key.len() + delay.least();
    let mut newest = key.cursor();
    let mut oldest = key.cursor();
    let first = received(&oldest, delay, t);
    let mut end = steady_until(&mut newest, &mut oldest, delay, t);
    'stretches: while end < last && received(&oldest, delay, end) == first {
        end = steady_until(&mut newest, &mut oldest, delay, end);
    }
    end
}

// A tick until which the same is received as at that tick. No run of the key begins or ends to
// arrive before it. One cursor goes along with the newest that arrives, one with the oldest.
fn steady_until(newest: &mut Cursor<'_>, oldest: &mut Cursor<'_>, delay: Within, t: u32) -> u32
    requires one { oldest.old ≡ newest.old }
    requires later { 1 ≤ delay.least }
    requires known { t < length newest.old + delay.least }
    ensures newest { newest.new ≡ newest.old }
    ensures oldest { oldest.new ≡ oldest.old }
    ensures later { t < result }
    ensures inside { result ≤ length newest.old + delay.least }
    ensures same { (k : ℕ) → t ≤ k → k < result →
        rails_delayed (wave_at newest.old) delay k ≡ rails_delayed (wave_at newest.old) delay t }
{
    delays_are_their_facts();
    let first = arrives_until(newest, delay.least(), t);
    first.min(arrives_until(oldest, delay.greatest(), t))
}

// Until when the same arrives after exactly that delay as at that tick, or nothing still does.
fn arrives_until(key: &mut Cursor<'_>, delay: u32, t: u32) -> u32
    requires known { t < length key.old + delay }
    requires limited { delay ≤ 4000 }
    ensures key { key.new ≡ key.old }
    ensures later { t < result }
    ensures inside { result ≤ length key.old + delay }
    ensures alike { ArrivesAlike (wave_at key.old) delay t result }
{
    if t < delay {
        delay
    } else {
        key.stretch(t - delay).end + delay
    }
}

// What is received at a tick at which every key that may arrive is known. The cursor is best at the
// oldest that arrives.
fn received(key: &Cursor<'_>, delay: Within, t: u32) -> Tern
    requires later { 1 ≤ delay.least }
    requires known { t < length key.now + delay.least }
    ensures { tern_rails result ≡ rails_delayed (wave_at key.now) delay t }
{
    delays_are_their_facts();
    delays_stay_sound();
    let least = delay.least();
    let greatest = delay.greatest();
    Tern::from_rails(
        must_come(key, least, greatest, t),
        may_come(key, least, greatest, t),
    )
}

// Whether the key must have been on at every delay.
fn must_come(key: &Cursor<'_>, least: u32, greatest: u32, t: u32) -> bool
    requires ordered { least ≤ greatest }
    requires known { t < length key.now + least }
    ensures { IsTrue result
        ↔ AllCome (λ r. (wave_at key.now r).must) (ends_of least greatest) t }
{
    let keys = key.copy();
    t >= greatest && first_from(keys, t - greatest, t - least + 1, |level| !level.must(0)).is_none()
}

// Whether the key may have been on at some delay.
fn may_come(key: &Cursor<'_>, least: u32, greatest: u32, t: u32) -> bool
    requires ordered { least ≤ greatest }
    requires known { t < length key.now + least }
    ensures { IsTrue result
        ↔ SomeComes (λ r. (wave_at key.now r).may) (ends_of least greatest) t }
{
    let from = t.saturating_sub(greatest);
    t >= least && first_from(key.copy(), from, t - least + 1, |level| level.may(0)).is_some()
}
