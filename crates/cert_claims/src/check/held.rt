//! Whether an obligation is held by the trip that follows from the claims.

ghost use Rattle.std.specs.Prelude.{◌≡◌, ◌<◌, ◌≤◌, ℕ, Bool, IsTrue, IsFalse, length};
ghost use Rattle.std.specs.Bool.{Decides};
ghost use Rattle.model_logic.specs.Rule.{IsHeld};
ghost use Rattle.run_waves.specs.{waves.FirstTick.first_on, waves.Waves.wave_at};

use model_line::{Kind, Script};
use run_waves::waves::{Runs, first_may, first_must, the_first_tick_is_the_least};

/// Whether the rule is held. Internal: the trip must come at some tick up to the deadline.
/// External: it may come at none.
pub fn is_held(script: &Script, trip: &Runs) -> bool
    requires { script.now.deadline < length trip.now }
    ensures { Decides result
        (IsHeld script.now.kind script.now.deadline (length trip.now) (wave_at trip.now)) }
{
    match script.kind {
        Kind::Internal => comes_by(first_must(trip), script.deadline),
        Kind::External => never_comes(first_may(trip)),
    }
}

// Whether there is a first tick, and it is at most the deadline.
fn comes_by(first: Option<u32>, deadline: u32) -> bool
    ensures { (u : ℕ → Bool) (n : ℕ) → deadline < n → first ≡ first_on u n →
        Decides result ((t : ℕ) × (t ≤ deadline) × IsTrue (u t)) }
{
    the_first_tick_is_the_least();
    match first {
        Some(t) => t <= deadline,
        None => false,
    }
}

// Whether there is no first tick.
fn never_comes(first: Option<u32>) -> bool
    ensures { (u : ℕ → Bool) (n : ℕ) → first ≡ first_on u n →
        Decides result ((t : ℕ) → t < n → IsFalse (u t)) }
{
    the_first_tick_is_the_least();
    first.is_none()
}
