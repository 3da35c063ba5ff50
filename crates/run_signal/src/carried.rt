//! Signals that a channel carries: what is received at a tick.
#![tactic(auto)]

ghost use Rattle.std.specs.Prelude.{◌≡◌, ℕ, ◌<◌, ◌≤◌, length};
ghost use Rattle.model_history.specs.Rails.{rails_at, rails_delayed};
ghost use Rattle.run_signal.specs.Lanes.{in_lane};

use crate::Signal;
use crate::track::Track;

/// Signals that a channel carries.
pub trait Carried: Signal {
    /// What is received at the tick after those at which these keys were sent, from tick 0 on,
    /// where what arrives at it was delayed by a number of ticks within this span.
    fn arrive(sent: &Track<Self>, delay: &Self::Span) -> Self
        requires later { (lane : ℕ) → lane < Self.signal.lanes →
            1 ≤ (Self.signal.ends delay.now lane).least }
        requires room { length sent.now.keys < 4000 }
        ensures { (lane : ℕ) → lane < Self.signal.lanes →
            Self.signal.rails result lane
            ≡ rails_delayed (rails_at (in_lane Self.signal.rails lane sent.now.keys))
            (Self.signal.ends delay.now lane) (length sent.now.keys) };
}
