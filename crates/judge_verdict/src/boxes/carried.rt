//! What is received of a key in 64 lanes of values that may be unknown.

ghost use Rattle.std.specs.Prelude.{◌≡◌, ◌<◌, ◌≤◌, ℕ, length};
ghost use Rattle.model_history.specs.Rails.{rails_at, rails_delayed};
ghost use Rattle.run_signal.specs.{Bits.bit_on, Lanes.in_lane, Spans.ends_of};
ghost use Rattle.judge_verdict.specs.boxes.Terns.{terns_rails};
ghost use Rattle.judge_verdict.specs.{boxes.Spans.span_ends, boxes.Sent.must_before, boxes.Sent.may_before};

use crate::boxes::spans::Spans64;
use crate::boxes::terns::Terns64;
use model_history::delay_laws::{delays_stay_sound, one_delay_reads_one_tick};
use run_signal::{Carried, Lanes64, Signal, Track};

impl Carried for Terns64 {
    fn arrive(sent: &Track<Terns64>, delay: &Spans64) -> Terns64 {
        if delay.is_alike() {
            arrive_alike(sent, delay.least_in(0), delay.greatest_in(0))
        } else {
            arrive_by_lane(sent, delay)
        }
    }
}

// What is received where each lane has this span: one look at a key for each delay in it.
fn arrive_alike(sent: &Track<Terns64>, least: u32, greatest: u32) -> Terns64
    requires later { 1 ≤ least }
    requires ordered { least ≤ greatest }
    requires limited { greatest ≤ 4000 }
    ensures { (lane : ℕ) → lane < 64 →
        terns_rails result lane
        ≡ rails_delayed (rails_at (in_lane terns_rails lane sent.now.keys)) (ends_of least greatest)
        (length sent.now.keys) }
{
    delays_stay_sound();
    let mut must = Lanes64::known(true);
    let mut may = Lanes64::known(false);
    for c in least..greatest + 1 {
        let key = key_before(sent, c);
        must = key.must.and(must);
        may = key.possible().or(may);
    }
    Terns64 { must, may }
}

// The key so many ticks ago; off where there is none.
fn key_before(sent: &Track<Terns64>, c: u32) -> Terns64
    requires { 1 ≤ c }
    ensures must { (lane : ℕ) → lane < 64 →
        (terns_rails result lane).must ≡ must_before sent.now.keys lane c }
    ensures may { (lane : ℕ) → lane < 64 →
        (terns_rails result lane).may ≡ may_before sent.now.keys lane c }
{
    one_delay_reads_one_tick();
    if c <= sent.len() {
        sent.at(sent.len() - c)
    } else {
        Terns64::known(false)
    }
}

// What is received where each lane has its own span.
fn arrive_by_lane(sent: &Track<Terns64>, delay: &Spans64) -> Terns64
    requires later { (lane : ℕ) → lane < 64 → 1 ≤ (span_ends delay.now lane).least }
    ensures { (lane : ℕ) → lane < 64 →
        terns_rails result lane
        ≡ rails_delayed (rails_at (in_lane terns_rails lane sent.now.keys)) (span_ends delay.now lane)
        (length sent.now.keys) }
{
    let mut must = Lanes64::known(false);
    let mut may = Lanes64::known(false);
    for lane in 0..64 {
        let received = arrive_alike(sent, delay.least_in(lane), delay.greatest_in(lane));
        must = must.with_lane(lane, received.must.must(lane));
        may = may.with_lane(lane, received.possible().must(lane));
    }
    Terns64 { must, may }
}
