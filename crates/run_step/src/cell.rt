//! The cells of timed gates.

ghost use Rattle.std.specs.Prelude.{◌≡◌, ℕ, ◌<◌, ◌≤◌, List, [], ◌∷◌, ◌++◌, length, replicate};
ghost use Rattle.run_signal.specs.Ahead.{next_rails};
ghost use Rattle.model_history.specs.Rails.{Rails, Ends, rails_timed, rails_sealed, rails_at};
ghost use Rattle.run_step.specs.CellStands.{HasTimer, HasSeal, TimerStands, SealStands};

use run_signal::{SealCell, Timed};

/// What a gate keeps from one tick to the next.
#[derive(Drop)]
pub enum Cell<T, S, P> {
    Nothing,
    /// With the spans of its pickup and dropout.
    Timer(T, P, P),
    Seal(S),
}

/// A timer's answer at the next tick.
pub fn timer_answer<V: Timed>(cell: &mut Cell<V::Cells, SealCell<V>, V::Span>, input: V) -> V
    requires { HasTimer cell.old }
    ensures shape { HasTimer cell.new }
    ensures stands { (lane : ℕ) (p d : Ends) (inputs : List Rails) → lane < V.signal.lanes →
        TimerStands V.stands_for V.signal.ends lane p d inputs cell.old →
        TimerStands V.stands_for V.signal.ends lane p d (inputs ++ V.signal.rails input lane ∷ [])
        cell.new }
    ensures timed { (lane : ℕ) (p d : Ends) (inputs : List Rails) → lane < V.signal.lanes →
        TimerStands V.stands_for V.signal.ends lane p d inputs cell.old →
        V.signal.rails result lane
        ≡ rails_timed (rails_at (inputs ++ V.signal.rails input lane ∷ [])) p d (length inputs) }
{
    match cell {
        Cell::Timer(cells, _, _) => V::tick(cells, input),
        _ => unreachable!(),
    }
}

/// A seal's answer at the next tick.
pub fn seal_answer<V: Timed>(cell: &mut Cell<V::Cells, SealCell<V>, V::Span>, set: V, hold: V) -> V
    requires { HasSeal cell.old }
    ensures shape { HasSeal cell.new }
    ensures stands { (lane : ℕ) (sets holds : List Rails) → lane < V.signal.lanes →
        SealStands V.signal.rails lane sets holds cell.old →
        SealStands V.signal.rails lane
        (sets ++ V.signal.rails set lane ∷ []) (holds ++ V.signal.rails hold lane ∷ []) cell.new }
    ensures sealed { (lane : ℕ) (sets holds : List Rails) → lane < V.signal.lanes →
        SealStands V.signal.rails lane sets holds cell.old →
        V.signal.rails result lane
        ≡ rails_sealed (rails_at (sets ++ V.signal.rails set lane ∷ []))
        (rails_at (holds ++ V.signal.rails hold lane ∷ [])) (length sets) }
{
    match cell {
        Cell::Seal(seal) => seal.tick(set, hold),
        _ => unreachable!(),
    }
}

/// For how many ticks a timer answers the same, if its input stays as it is.
pub fn timer_stays<V: Timed>(cell: &Cell<V::Cells, SealCell<V>, V::Span>, input: V) -> u32
    requires { HasTimer cell.now }
    ensures some { 1 ≤ result }
    ensures steady { (p d : ℕ → Ends) (inputs : ℕ → List Rails) →
        ((lane : ℕ) → lane < V.signal.lanes →
        TimerStands V.stands_for V.signal.ends lane (p lane) (d lane) (inputs lane) cell.now) →
        (lane j : ℕ) → lane < V.signal.lanes → j < result →
        next_rails (p lane) (d lane) (inputs lane) (V.signal.rails input lane) j
        ≡ next_rails (p lane) (d lane) (inputs lane) (V.signal.rails input lane) 0 }
{
    match cell {
        Cell::Timer(cells, _, _) => V::ahead(cells, input).max(1),
        _ => unreachable!(),
    }
}

/// A timer takes so many ticks with this input.
pub fn hold_timer<V: Timed>(cell: &mut Cell<V::Cells, SealCell<V>, V::Span>, input: V, count: u32)
    requires timer { HasTimer cell.old }
    requires some { 1 ≤ count }
    requires limited { count ≤ 4000 }
    ensures shape { HasTimer cell.new }
    ensures stands { (lane : ℕ) (p d : Ends) (inputs : List Rails) → lane < V.signal.lanes →
        TimerStands V.stands_for V.signal.ends lane p d inputs cell.old →
        TimerStands V.stands_for V.signal.ends lane p d
        (inputs ++ replicate count (V.signal.rails input lane)) cell.new }
{
    match cell {
        Cell::Timer(cells, _, _) => V::skip(cells, input, count),
        _ => unreachable!(),
    }
}
