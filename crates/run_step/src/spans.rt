//! The spans of pickups and dropouts.

ghost use Rattle.std.specs.Prelude.{◌≡◌, ℕ, ◌<◌, length};
ghost use Rattle.model_line.specs.Parameters.{param_count};
ghost use Rattle.model_logic.specs.Names.{HasTime};
ghost use Rattle.run_step.specs.LaneBox.{time_ends};

use model_line::Line;
use model_logic::Time;
use run_signal::Signal;

/// The span of a pickup or dropout.
pub fn time_span<V: Signal>(line: &Line, spans: &[V::Span], time: Time) -> V::Span
    requires spans { length spans.now ≡ param_count line.now }
    requires exists { HasTime line.now time }
    ensures { (lane : ℕ) → lane < V.signal.lanes →
        V.signal.ends result lane ≡ time_ends V.signal.ends lane spans.now time }
{
    match time {
        Time::Zero => V::sure(0),
        Time::Param(i) => spans[i as usize],
    }
}
