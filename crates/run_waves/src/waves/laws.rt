//! Laws of waves, of their texts, and of first ticks.
#![tactic(auto)]

ghost use Rattle.std.specs.Prelude.{◌≡◌, ◌<◌, ◌≤◌, ◌↔◌, ℕ, Bool, List, IsTrue, IsFalse, length};
ghost use Rattle.run_signal.specs.declared.tern.Tern.{Tern};
ghost use Rattle.run_waves.specs.{waves.FirstTick.first_on, waves.Text.runs_text, waves.WaveLaws.WavesGrow};

/// A text is that of at most one wave.
pub fn texts_tell_waves()
    ensures { (wave other : List Tern) → length wave ≤ 4000 → length other ≤ 4000 →
        runs_text wave ≡ runs_text other → wave ≡ other }
{}

/// A wave grows by stretches of one value.
pub fn waves_grow()
    ensures { WavesGrow }
{}

/// The first tick at which a signal is on is the least one, and there is none exactly where it is
/// on at no tick.
pub fn the_first_tick_is_the_least()
    ensures some { (u : ℕ → Bool) (n t : ℕ) →
        (first_on u n ≡ Some t)
        ↔ ((t < n) × IsTrue (u t) × ((r : ℕ) → r < t → IsFalse (u r))) }
    ensures none { (u : ℕ → Bool) (n : ℕ) →
        (first_on u n ≡ None) ↔ ((t : ℕ) → t < n → IsFalse (u t)) }
{}
