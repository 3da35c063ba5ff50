//! Signals with a timed element: what its cells stand for, and how they go on.
#![tactic(auto)]

ghost use Rattle.std.specs.Prelude.{◌≡◌, ℕ, ◌<◌, ◌≤◌, List, [], ◌∷◌, ◌++◌, length, replicate};
ghost use Rattle.model_history.specs.Rails.{Rails, rails_timed, rails_at};
ghost use Rattle.run_signal.specs.Ahead.{IsSteadyFor, next_rails};

use crate::Signal;

/// Signals with a timed element.
pub trait Timed: Signal {
    /// What the element keeps of its input so far: no history.
    type Cells: Drop;

    /// These cells stand for a pickup and a dropout, and in this lane for the input's rails so far.
    ghost stands_for: { Self.Cells → Self.Span → Self.Span → ℕ → List Rails → Type 0 };

    /// The cells before the first tick.
    fn fresh(pickup: Self::Span, dropout: Self::Span) -> Self::Cells
        ensures { (lane : ℕ) → lane < Self.signal.lanes →
            stands_for result pickup dropout lane [] };

    /// Takes the input of the next tick, and answers the timed element at it.
    fn tick(cells: &mut Self::Cells, input: Self) -> Self
        ensures stands { (pickup dropout : Self.Span) (lane : ℕ) (inputs : List Rails) →
            lane < Self.signal.lanes → stands_for cells.old pickup dropout lane inputs →
            stands_for cells.new pickup dropout lane (inputs ++ Self.signal.rails input lane ∷ []) }
        ensures timed { (pickup dropout : Self.Span) (lane : ℕ) (inputs : List Rails) →
            lane < Self.signal.lanes → stands_for cells.old pickup dropout lane inputs →
            Self.signal.rails result lane
            ≡ rails_timed (rails_at (inputs ++ Self.signal.rails input lane ∷ []))
            (Self.signal.ends pickup lane) (Self.signal.ends dropout lane) (length inputs) };

    /// The greatest number from 1 to 4,000 such that so many ticks, each with this input, have
    /// equal answers on both rails in each lane.
    fn ahead(cells: &Self::Cells, input: Self) -> u32
        ensures { (pickup dropout : Self.Span) (inputs : ℕ → List Rails) →
            ((lane : ℕ) → lane < Self.signal.lanes →
            stands_for cells.now pickup dropout lane (inputs lane)) →
            IsSteadyFor Self.signal.lanes
            (λ lane k. next_rails (Self.signal.ends pickup lane) (Self.signal.ends dropout lane)
            (inputs lane) (Self.signal.rails input lane) k)
            result };

    /// Takes so many ticks, each with this input.
    fn skip(cells: &mut Self::Cells, input: Self, count: u32)
        requires some { 1 ≤ count }
        requires limited { count ≤ 4000 }
        ensures { (pickup dropout : Self.Span) (lane : ℕ) (inputs : List Rails) →
            lane < Self.signal.lanes → stands_for cells.old pickup dropout lane inputs →
            stands_for cells.new pickup dropout lane
            (inputs ++ replicate count (Self.signal.rails input lane)) };
}
