//! Cells of timers that take ticks only when they are looked at.

ghost use Rattle.std.specs.Prelude.{◌≡◌, ℕ, suc, ◌<◌, ◌≤◌};
ghost use Rattle.model_history.specs.{Rails.Rails, Rails.Ends, Recorded.first_ticks};
ghost use Rattle.model_logic.specs.PairMean.{PairWorld};
ghost use Rattle.run_step.specs.CellStands.{HasCell, CellStands, HasTimer, TimerStands};
ghost use Rattle.run_step.specs.GatePairs.{GateSignals};
ghost use Rattle.run_changes.specs.changes.Lags.{Lags};

use net_gates::Gate;
use run_signal::{SealCell, Timed, elements_stay_in_a_stretch};
use run_step::{Cell, hold_timer};

/// How many ticks a timer's cell has taken, and what its input is since the last of them.
#[derive(Clone, Copy)]
pub struct Since<V: Copy> {
    pub fed: u32,
    pub input: V,
}

/// A gate's cell takes the ticks before this one that it has not taken.
pub fn catch_up<V: Timed>(
    gate: &Gate,
    cell: &mut Cell<V::Cells, SealCell<V>, V::Span>,
    since: Since<V>,
    t: u32,
)
    requires early { t ≤ 4000 }
    requires cell { HasCell gate.now cell.old }
    ensures shape { HasCell gate.now cell.new }
    ensures stands { (lane : ℕ) (w : PairWorld) (u : GateSignals) → lane < V.signal.lanes →
        Lags V.signal V.stands_for lane w u t gate.now cell.old since →
        CellStands V.signal V.stands_for lane w u t gate.now cell.new }
{
    match *gate {
        Gate::Timer(_, _, _) => feed::<V>(cell, since, t),
        _ => {}
    }
}

// A timer's cell takes them.
fn feed<V: Timed>(cell: &mut Cell<V::Cells, SealCell<V>, V::Span>, since: Since<V>, t: u32)
    requires early { t ≤ 4000 }
    requires cell { HasTimer cell.old }
    ensures shape { HasTimer cell.new }
    ensures stands { (lane : ℕ) (p d : Ends) (input : ℕ → Rails) → lane < V.signal.lanes →
        since.fed ≤ t →
        TimerStands V.stands_for V.signal.ends lane p d (first_ticks input since.fed) cell.old →
        ((r : ℕ) → since.fed ≤ suc r → r < t → input r ≡ V.signal.rails since.input lane) →
        TimerStands V.stands_for V.signal.ends lane p d (first_ticks input t) cell.new }
{
    elements_stay_in_a_stretch();
    if since.fed < t {
        hold_timer::<V>(cell, since.input, t - since.fed);
    }
}
