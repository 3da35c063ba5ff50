//! What is received of a key that may be unknown.
#![tactic(auto)]

ghost use Rattle.std.specs.Prelude.{◌≤◌, ◌↔◌, IsTrue, length};
ghost use Rattle.model_history.specs.Comes.{AllCome, SomeComes};
ghost use Rattle.run_signal.specs.Spans.{ends_of};
ghost use Rattle.run_signal.specs.Sent.{sent_must, sent_may};

use crate::span::Within;
use crate::tern::Tern;
use crate::{Carried, Signal, Track};
use model_history::delay_laws::{delays_are_their_facts, delays_stay_sound};

impl Carried for Tern {
    fn arrive(sent: &Track<Tern>, delay: &Within) -> Tern {
        delays_are_their_facts();
        delays_stay_sound();
        let least = delay.least();
        let greatest = delay.greatest();
        Tern::from_rails(
            must_come(sent, least, greatest),
            may_come(sent, least, greatest),
        )
    }
}

// Whether the key must have been on at every delay.
fn must_come(sent: &Track<Tern>, least: u32, greatest: u32) -> bool
    requires later { 1 ≤ least }
    requires limited { greatest ≤ 4000 }
    ensures { IsTrue result
        ↔ AllCome (sent_must sent.now.keys) (ends_of least greatest) (length sent.now.keys) }
{
    for c in least..greatest + 1 {
        if c > sent.len() || !sent.at(sent.len() - c).must(0) {
            return false;
        }
    }
    true
}

// Whether the key may have been on at some delay.
fn may_come(sent: &Track<Tern>, least: u32, greatest: u32) -> bool
    requires later { 1 ≤ least }
    requires limited { greatest ≤ 4000 }
    ensures { IsTrue result
        ↔ SomeComes (sent_may sent.now.keys) (ends_of least greatest) (length sent.now.keys) }
{
    for c in least..greatest + 1 {
        if c <= sent.len() && sent.at(sent.len() - c).may(0) {
            return true;
        }
    }
    false
}
