//! The values of some gates are kept.

ghost use Rattle.std.specs.Prelude.{◌≡◌, ℕ, ◌<◌, ◌≤◌, ◌+◌, ◌++◌, length, replicate, slice_get};
ghost use Rattle.std.specs.Prelude.{Some};
ghost use Rattle.model_logic.specs.PairMean.{PairSignals};
ghost use Rattle.net_gates.specs.NetOf.{AreGatesOf, id_at};
ghost use Rattle.run_step.specs.Ticks.{KeysSent, AreSent};

use net_gates::GateId;
use run_signal::{Signal, Track, elements_stay_in_a_stretch};

/// Appends to the track of each of these gates its value, for so many ticks.
pub fn send_all<V: Signal>(
    gates: &[GateId],
    column: &[V],
    tracks: &mut Vec<Track<V>>,
    horizon: u32,
    t: u32,
    count: u32,
)
    requires some { 1 ≤ count }
    requires gates { AreGatesOf gates.now (length column.now) }
    requires room { t + count ≤ horizon }
    requires sent { AreSent (length gates.now) horizon t tracks.old.items }
    ensures count { AreSent (length gates.now) horizon (t + count) tracks.new.items }
    ensures keys { (lane : ℕ) (keys : PairSignals) → lane < V.signal.lanes →
        ((k : ℕ) (x : V) → k < length gates.now →
        slice_get column.now (id_at gates.now k) ≡ Some x →
        (r : ℕ) → t ≤ r → r < t + count → keys k r ≡ V.signal.rails x lane) →
        KeysSent V.signal.rails lane keys t tracks.old.items →
        KeysSent V.signal.rails lane keys (t + count) tracks.new.items }
{
    elements_stay_in_a_stretch();
    for k in 0..gates.len() {
        let value = column[gates[k].0 as usize];
        tracks[k].push(value, count);
    }
}
