//! The seal of two signals.
#![tactic(auto)]

ghost use Rattle.std.specs.Prelude.{◌≡◌, ℕ, ◌<◌, ◌≤◌, List, [], ◌∷◌, ◌++◌, length, replicate};
ghost use Rattle.model_history.specs.Rails.{Rails, rails_sealed, rails_at, rails_or, rails_and};
ghost use Rattle.run_signal.specs.Seals.{SealStandsFor};

use crate::Signal;
use model_history::laws::history_laws;
use std::marker::Model;

/// A seal: on from a tick at which it is set for as long as it is held. Contracts see its last
/// answer.
#[derive(Drop)]
pub struct SealCell<V: Signal> {
    last: V,
}

impl<V: Signal> Model for SealCell<V> {
    ghost Value = { V };

    ghost view = { λ a. a.last };
}

impl<V: Signal> SealCell<V> {
    /// The seal before the first tick.
    pub fn new() -> Self
        ensures { (lane : ℕ) → lane < V.signal.lanes →
            SealStandsFor (V.signal.rails result lane) [] [] }
    {
        SealCell {
            last: V::known(false),
        }
    }

    /// Takes set and hold of the next tick, and answers the seal at it.
    pub fn tick(&mut self, set: V, hold: V) -> V
        ensures stands { (lane : ℕ) (sets holds : List Rails) → lane < V.signal.lanes →
            SealStandsFor (V.signal.rails self.old lane) sets holds →
            SealStandsFor (V.signal.rails self.new lane)
            (sets ++ V.signal.rails set lane ∷ []) (holds ++ V.signal.rails hold lane ∷ []) }
        ensures sealed { (lane : ℕ) (sets holds : List Rails) → lane < V.signal.lanes →
            SealStandsFor (V.signal.rails self.old lane) sets holds →
            V.signal.rails result lane
            ≡ rails_sealed (rails_at (sets ++ V.signal.rails set lane ∷ []))
            (rails_at (holds ++ V.signal.rails hold lane ∷ [])) (length sets) }
    {
        self.skip(set, hold, 1);
        self.last
    }

    /// Takes so many ticks, each with this set and this hold: after the first of them a seal stays
    /// as it is.
    pub fn skip(&mut self, set: V, hold: V, count: u32)
        requires some { 1 ≤ count }
        requires limited { count ≤ 4000 }
        ensures { (lane : ℕ) (sets holds : List Rails) → lane < V.signal.lanes →
            SealStandsFor (V.signal.rails self.old lane) sets holds →
            SealStandsFor (V.signal.rails self.new lane)
            (sets ++ replicate count (V.signal.rails set lane))
            (holds ++ replicate count (V.signal.rails hold lane)) }
    {
        history_laws();
        self.last = next(set, hold, self.last);
    }
}

// Whether the seal is on after one more tick.
fn next<V: Signal>(set: V, hold: V, last: V) -> V
    ensures { (lane : ℕ) → lane < V.signal.lanes →
        V.signal.rails result lane
        ≡ rails_or (V.signal.rails set lane) (rails_and (V.signal.rails hold lane) (V.signal.rails
        last lane)) }
{
    set.or(hold.and(last))
}
