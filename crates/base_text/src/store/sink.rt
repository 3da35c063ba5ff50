//! A sink of bytes, and the put of a whole text.
ghost use Rattle.std.specs.Prelude.{◌≡◌, ◌+◌, ◌<◌, ◌≤◌, ℕ, List, Option, length, IfOk, OnOk, OnErr};
ghost use Rattle.std.specs.Io.KnownBytes.{Appends, WriteAppends};
ghost use Rattle.base_text.specs.{store.Counts.Rose, store.Counts.one_more, store.Sink.GrewByProper};

use base_memory::Stopped;

/// A push took nothing, and the count of faults rose.
#[derive(Clone, Copy)]
pub struct SinkFailed;

/// A text was put in part only, and the count of faults rose.
#[derive(Clone, Copy, PartialEq, Eq, Drop)]
pub struct PutFailed;

impl From<PutFailed> for Stopped<PutFailed> {
    ghost use Rattle.std.specs.Prelude.{◌≡◌};
    ghost use Rattle.base_memory.specs.declared.stopped.Stopped.TheVariants as stopped;

    ghost from_gives = { λ failed why. why ≡ stopped.Fault failed };

    fn from(failed: PutFailed) -> Self {
        Stopped::Fault(failed)
    }
}

/// Takes bytes piece by piece, with a count of its faults.
///
/// Each count never falls, and stands still at `u64::MAX`. That a count rose means that it rose
/// in the call or stands there.
pub trait Sink {
    /// The bytes that it took, where the sink tells them.
    ghost written: { Self → Option (List ℕ) };

    /// How many pushes took nothing.
    ghost faults: { Self → ℕ };

    /// How many pushes were made.
    ghost pushes: { Self → ℕ };

    /// Takes a front of the piece, and gives its length.
    fn push(&mut self, piece: &[u8]) -> Result<usize, SinkFailed>
        requires { 0 < length piece.now }

        ensures bound { IfOk result (λ n. n ≤ length piece.now) }
        ensures bytes { WriteAppends (written self.old) (written self.new) result piece.now }

        // A push that took nothing is counted, with an error or without one.
        ensures later { faults self.old ≤ faults self.new }
        ensures failed { OnErr result (Rose (faults self.old) (faults self.new)) }
        ensures took_none { IfOk result (λ n. n ≡ 0 → Rose (faults self.old) (faults self.new)) }
        ensures took { IfOk result (λ n. 0 < n → faults self.new ≡ faults self.old) }

        // Each push is counted, whatever it answers.
        ensures pushed { pushes self.old ≤ pushes self.new }
        ensures pushes { pushes self.new ≡ one_more (pushes self.old) };
}

/// Pushes all of the bytes, in at most as many pushes as there are bytes.
pub fn put_all<K: Sink>(sink: &mut K, bytes: &[u8]) -> Result<(), PutFailed>
    ensures all { OnOk result (Appends (K.written sink.old) (K.written sink.new) bytes.now) }
    ensures same { OnOk result (K.faults sink.new ≡ K.faults sink.old) }

    ensures part { OnErr result (GrewByProper (K.written sink.old) (K.written sink.new) bytes.now) }
    ensures failed { OnErr result (Rose (K.faults sink.old) (K.faults sink.new)) }
    ensures later { K.faults sink.old ≤ K.faults sink.new }

    ensures pushed { K.pushes sink.old ≤ K.pushes sink.new }
    ensures pushes { K.pushes sink.new ≤ K.pushes sink.old + length bytes.now }
{
    let mut at: usize = 0;
    while at < bytes.len() {
        let Ok(taken) = sink.push(&bytes[at..]) else {
            return Err(PutFailed);
        };
        if taken == 0 {
            return Err(PutFailed);
        }
        at += taken;
    }
    Ok(())
}
