//! What is received of a key in 64 lanes.
#![tactic(auto)]

ghost use Rattle.std.specs.Prelude.{◌≡◌, ◌<◌, ◌≤◌, ℕ, length, if◌then◌else◌};
ghost use Rattle.model_history.specs.Rails.{single, rails_at, rails_delayed};
ghost use Rattle.run_signal.specs.{Bits.bit_on, Bits.bit_rails, Lanes.in_lane};

use crate::lanes::{Lanes64, Ticks64};
use crate::{Carried, Signal, Track};
use model_history::delay_laws::one_delay_reads_one_tick;

impl Carried for Lanes64 {
    fn arrive(sent: &Track<Lanes64>, delay: &Ticks64) -> Lanes64 {
        let mut received = Lanes64::known(false);
        let mut left = Lanes64::known(true);
        let mut lane = 0;
        'next_delay: while lane < 64 {
            let c = Lanes64::least(delay, lane);
            let alike = Lanes64::alike(delay, lane);
            received = chosen(alike, key_before(sent, c), received);
            left = left.without(alike);
            lane = left.first();
        }
        received
    }
}

// The key so many ticks ago; off where there is none.
fn key_before(sent: &Track<Lanes64>, c: u32) -> Lanes64
    requires { 1 ≤ c }
    ensures { (lane : ℕ) → lane < 64 →
        bit_rails result lane
        ≡ rails_delayed (rails_at (in_lane bit_rails lane sent.now.keys)) (single c) (length sent.now.keys) }
{
    one_delay_reads_one_tick();
    if c <= sent.len() {
        sent.at(sent.len() - c)
    } else {
        Lanes64::known(false)
    }
}

// The one value in the lanes that are on, the other in the rest.
fn chosen(lanes: Lanes64, one: Lanes64, other: Lanes64) -> Lanes64
    ensures { (lane : ℕ) → lane < 64 →
        bit_rails result lane
        ≡ (if bit_on lanes lane then bit_rails one lane else bit_rails other lane) }
{
    lanes.and(one).or(lanes.not().and(other))
}
