//! Denial, conjunction and disjunction of whole waves.
#![tactic(auto)]

ghost use Rattle.std.specs.Prelude.{◌≡◌, ◌<◌, ◌≤◌, ℕ, IsTrue, length, IfOk};
ghost use Rattle.model_history.specs.Rails.{Rails, rails_not, rails_and, rails_or};
ghost use Rattle.run_signal.specs.declared.tern.Tern.{Tern};
ghost use Rattle.run_signal.specs.Terns.{tern_rails};
ghost use Rattle.run_waves.specs.waves.Waves.{wave_at, IsWaveOf, Combines, Decides, Leaves, IsDecided};

use crate::waves::runs::{Runs, Stretch};
use model_line::Memory;
use run_signal::{Signal, Tern};
use std::alloc::Global;

/// The denial of a wave, tick by tick.
pub fn not(alloc: Global, a: &Runs) -> Result<Runs, Memory>
    ensures { IfOk result (λ wave.
        IsWaveOf wave (length a.now) (λ t. rails_not (wave_at a.now t))) }
{
    let mut wave = Runs::new(alloc);
    let mut inputs = a.cursor();
    'stretches: while wave.len() < a.len() {
        let t = wave.len();
        let input = inputs.stretch(t);
        wave.push(input.level.not(), input.end - t)?;
    }
    Ok(wave)
}

/// The conjunction of two waves of the same length, tick by tick.
pub fn and(alloc: Global, a: &Runs, b: &Runs) -> Result<Runs, Memory>
    requires { length b.now ≡ length a.now }
    ensures { IfOk result (λ wave.
        IsWaveOf wave (length a.now) (λ t. rails_and (wave_at a.now t) (wave_at b.now t))) }
{
    combined(alloc, a, b, Tern::Zero, Tern::One, |x, y| x.and(y))
}

/// The disjunction of two waves of the same length, tick by tick.
pub fn or(alloc: Global, a: &Runs, b: &Runs) -> Result<Runs, Memory>
    requires { length b.now ≡ length a.now }
    ensures { IfOk result (λ wave.
        IsWaveOf wave (length a.now) (λ t. rails_or (wave_at a.now t) (wave_at b.now t))) }
{
    combined(alloc, a, b, Tern::One, Tern::Zero, |x, y| x.or(y))
}

// An operation on the values of two waves of the same length, tick by tick. One value decides alone
// what it answers, and another leaves that to the other argument.
fn combined<F>(
    alloc: Global,
    a: &Runs,
    b: &Runs,
    decides: Tern,
    leaves: Tern,
    op: F,
) -> Result<Runs, Memory>
where
    F: Fn(Tern, Tern) -> Tern,
    requires long { length b.now ≡ length a.now }
    requires callable { (x y : Tern) → F.pre op x y }
    ensures { (rails : Rails → Rails → Rails) → Combines (F.post op) rails →
        Decides rails decides → Leaves rails leaves → IfOk result (λ wave.
        IsWaveOf wave (length a.now) (λ t. rails (wave_at a.now t) (wave_at b.now t))) }
{
    if is_all(a, leaves) {
        let wave = b.copy(alloc)?;
        Ok(wave)
    } else if is_all(b, leaves) {
        let wave = a.copy(alloc)?;
        Ok(wave)
    } else {
        merged(alloc, a, b, decides, op)
    }
}

// The same, run by run.
fn merged<F>(alloc: Global, a: &Runs, b: &Runs, decides: Tern, op: F) -> Result<Runs, Memory>
where
    F: Fn(Tern, Tern) -> Tern,
    requires long { length b.now ≡ length a.now }
    requires callable { (x y : Tern) → F.pre op x y }
    ensures { (rails : Rails → Rails → Rails) → Combines (F.post op) rails →
        Decides rails decides → IfOk result (λ wave.
        IsWaveOf wave (length a.now) (λ t. rails (wave_at a.now t) (wave_at b.now t))) }
{
    let mut wave = Runs::new(alloc);
    let mut firsts = a.cursor();
    let mut seconds = b.cursor();
    'stretches: while wave.len() < a.len() {
        let t = wave.len();
        let first = firsts.stretch(t);
        let second = seconds.stretch(t);
        let level = op(first.level, second.level);
        let end = decided_until(first, second, decides);
        wave.push(level, end - t)?;
    }
    Ok(wave)
}

// Whether the wave has this value at every tick.
fn is_all(wave: &Runs, level: Tern) -> bool
    ensures { IsTrue result → (t : ℕ) → t < length wave.now → wave_at wave.now t ≡ tern_rails level }
{
    if wave.len() == 0 {
        return false;
    }
    let mut cursor = wave.cursor();
    let first = cursor.stretch(0);
    first.level == level && first.end == wave.len()
}

// Until when two runs decide what a gate answers.
fn decided_until(first: Stretch, second: Stretch, decides: Tern) -> u32
    ensures later { (t : ℕ) → t < first.end → t < second.end → t < result }
    ensures within { (n : ℕ) → first.end ≤ n → second.end ≤ n → result ≤ n }
    ensures decided { (k : ℕ) → k < result → IsDecided first second decides k }
{
    if first.level == decides {
        first.end
    } else if second.level == decides {
        second.end
    } else {
        first.end.min(second.end)
    }
}
