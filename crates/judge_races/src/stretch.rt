//! Stretches of ticks at which a wave may be on.

ghost use Rattle.std.specs.Prelude.{◌≡◌, ◌≤◌, ◌<◌, ℕ, Bool, IfOk, length};
ghost use Rattle.run_waves.specs.waves.Waves.{wave_at};
ghost use Rattle.judge_races.specs.Stretches.{AreOffs, IsOffFrom, Longest};

use model_line::Memory;
use run_signal::Signal;
use run_waves::waves::Runs;
use std::alloc::Global;

/// So many ticks one after another.
#[derive(Clone, Copy)]
pub struct Stretch {
    pub from: u32,
    pub ticks: u32,
}

/// For each tick the first from it on at which the wave is off; the number of ticks where there is
/// none.
pub fn offs(alloc: Global, wave: &Runs) -> Result<Vec<u32>, Memory>
    ensures offs { IfOk result (λ offs.
        AreOffs (λ t. (wave_at wave.now t).may) (length wave.now) offs.items) }
    ensures short { IfOk result (λ offs. length offs.items ≤ 4000) }
{
    let mut offs = Vec::with_capacity(alloc, wave.len() as usize)?;
    for t in 0..wave.len() {
        offs.push(off_from(wave, t))?;
    }
    Ok(offs)
}

// The first tick from that one on at which the wave is off.
fn off_from(wave: &Runs, from: u32) -> u32
    requires { from < length wave.now }
    ensures { IsOffFrom (λ t. (wave_at wave.now t).may) (length wave.now) from result }
{
    let mut cursor = wave.cursor();
    let mut t = from;
    'stretches: while t < wave.len() {
        let run = cursor.stretch(t);
        if !run.level.may(0) {
            return t;
        }
        t = run.end;
    }
    t
}

/// The longest stretch at which the wave may be on, the first of these; nothing where it is off at
/// every tick.
pub fn longest(offs: &[u32]) -> Option<Stretch>
    requires { length offs.now ≤ 4000 }
    ensures { (u : ℕ → Bool) → AreOffs u (length offs.now) offs.now →
        Longest u (length offs.now) result }
{
    let mut best = Stretch { from: 0, ticks: 0 };
    for r in 0..offs.len() {
        let ticks = offs[r].saturating_sub(r as u32);
        if ticks > best.ticks {
            best = Stretch {
                from: r as u32,
                ticks,
            };
        }
    }
    if best.ticks == 0 { None } else { Some(best) }
}
