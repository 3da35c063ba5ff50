//! The steps of a delay, from the key that it delayed.

use model_line::Memory;
use model_timing::{Step, Timing, has_step};
use run_signal::Tick;

/// A delay that moves so that what arrives is on wherever it can be, or off wherever it can be.
#[derive(Clone, Copy)]
pub struct Leaning {
    pub param: u32,
    pub least: u32,
    pub greatest: u32,
    pub on: bool,
}

/// Adds the steps of such a delay to a timing, where the sender's key is this at each tick. It
/// changes where it must.
pub fn push_moves(
    keys: &[bool],
    horizon: u32,
    leaning: Leaning,
    timing: &mut Timing,
) -> Result<(), Memory> {
    let mut last = leaning.least;
    for t in 1..horizon {
        let delay = delay_at(keys, leaning, t, last);
        if delay != last {
            push_step(timing, leaning.param, t, delay)?;
            last = delay;
        }
    }
    Ok(())
}

// The delay at a tick: the last one if it serves, else the least that does, else the last one.
fn delay_at(keys: &[bool], leaning: Leaning, t: u32, last: u32) -> u32 {
    if is_as_asked(keys, leaning, t, last) {
        return last;
    }
    for delay in leaning.least..leaning.greatest.saturating_add(1) {
        if is_as_asked(keys, leaning, t, delay) {
            return delay;
        }
    }
    last
}

// Whether what arrives after a delay is as the delay leans.
fn is_as_asked(keys: &[bool], leaning: Leaning, t: u32, delay: u32) -> bool {
    let arrives = delay <= t && is_on(keys, t - delay);
    arrives == leaning.on
}

fn is_on(keys: &[bool], t: u32) -> bool {
    keys.get(t as usize).copied().unwrap_or(false)
}

fn push_step(timing: &mut Timing, param: u32, from: u32, delay: u32) -> Result<(), Memory> {
    if delay > 4000 || has_step(timing.steps(), param, from) {
        return Ok(());
    }
    let value = Tick::new(delay);
    timing.insert(Step { param, from, value })
}
