//! A store of named bytes, and the fetch of a whole name.
ghost use Rattle.std.specs.Prelude.{◌≡◌, ◌+◌, ◌≤◌, ℕ, List, Option, length, IfOk, IfErr, IfSome};
ghost use Rattle.std.specs.Prelude.{OnOk, OnErr, IsErrOf};
ghost use Rattle.base_text.specs.store.Counts.{Rose, Grew, one_more};
ghost use Rattle.base_text.specs.store.Store.{IsPiece, SameCounts, NoneFell, Explains, Counts};
ghost use Rattle.base_memory.specs.Gives.{OfFault};
ghost use Rattle.base_memory.specs.declared.stopped.Stopped.TheVariants as stopped;

use base_memory::Stopped;
use std::alloc::{AllocError, Global};

/// How many bytes one pull of a fetch asks for.
const PIECE: usize = 65536;

/// A pull gave nothing, and the count of its name rose.
#[derive(Clone, Copy)]
pub struct StoreFailed;

/// Why a fetch has no bytes to give.
#[derive(Clone, Copy, PartialEq, Eq, Drop)]
pub enum FetchFault {
    /// A pull failed.
    Failed,
    /// The name holds more bytes than the limit.
    TooLong,
}

/// Bytes under names, read piece by piece, with a count of the faults of each name.
///
/// Each count never falls, and stands still at `u64::MAX`. That a count rose means that it rose
/// in the call or stands there.
pub trait Store {
    /// The bytes under a name, where the store tells them.
    ghost held: { Self → List ℕ → Option (List ℕ) };

    /// How many pulls failed, for each name.
    ghost faults: { Self → List ℕ → ℕ };

    /// How many bytes were given.
    ghost given: { Self → ℕ };

    /// How many pulls were made.
    ghost pulls: { Self → ℕ };

    /// Fills the front of `into` with bytes of the name from the place `from` on, and gives their
    /// number. Where `into` has room, 0 means that there are no more.
    fn pull(&mut self, name: &str, from: u64, into: &mut [u8]) -> Result<usize, StoreFailed>
        requires { from ≤ 67108864 }

        ensures bound { IfOk result (λ n. n ≤ length into.new) }
        ensures bytes { IfOk result (λ n.
            IfSome (held self.old name.now) (λ bytes. IsPiece bytes from into.new n)) }
        ensures held { held self.new ≡ held self.old }

        // A failed pull is counted under its name, and every other pull leaves all names' counts.
        ensures later { NoneFell (faults self.old) (faults self.new) }
        ensures same { OnOk result (SameCounts (faults self.old) (faults self.new)) }
        ensures failed { OnErr result (Rose (faults self.old name.now) (faults self.new name.now)) }

        // The bytes are counted, and each pull, whatever it answers.
        ensures gives { given self.old ≤ given self.new }
        ensures given { IfOk result (λ n. Grew (given self.old) n (given self.new)) }
        ensures pulled { pulls self.old ≤ pulls self.new }
        ensures pulls { pulls self.new ≡ one_more (pulls self.old) };
}

// Zeros, as many as that.
fn buffer(alloc: Global, size: usize) -> Result<Vec<u8>, AllocError>
    ensures { IfOk result (λ v. length v.items ≡ size) }
{
    vec![in alloc; 0u8; size]
}

/// All the bytes under the name, at most `limit` of them, pulled until a pull gives none.
///
/// Where the store tells what the name holds, and no pull fails and memory is left, the answer is
/// `TooLong` exactly where that is longer than the limit.
pub fn fetch<S: Store>(
    alloc: Global,
    store: &mut S,
    name: &str,
    limit: u32,
) -> Result<Vec<u8>, Stopped<FetchFault>>
    requires { limit ≤ 67108864 }

    ensures short { IfOk result (λ v. length v.items ≤ limit) }
    ensures whole { IfOk result (λ v.
        IfSome (S.held store.old name.now) (λ bytes. bytes ≡ v.items)) }
    ensures held { S.held store.new ≡ S.held store.old }

    // TooLong comes only after more bytes than the limit, also where the store tells nothing.
    ensures fault { IfErr result (OfFault (Explains limit (S.held store.old name.now))) }
    ensures taken { IsErrOf result (stopped.Fault FetchFault.TooLong)
        → Grew (S.given store.old) (limit + 1) (S.given store.new) }
    ensures gives { S.given store.old ≤ S.given store.new }

    // Failed comes only where the count of the name rose; all else leaves every count.
    ensures later { NoneFell (S.faults store.old) (S.faults store.new) }
    ensures same { OnOk result (SameCounts (S.faults store.old) (S.faults store.new)) }
    ensures counts { IfErr result (Counts name.now (S.faults store.old) (S.faults store.new)) }

    ensures pulled { S.pulls store.old ≤ S.pulls store.new }
    ensures pulls { S.pulls store.new ≤ S.pulls store.old + (limit + 2) }
{
    let Ok(mut piece) = buffer(alloc, PIECE) else {
        return Err(Stopped::Memory);
    };
    let mut all: Vec<u8> = Vec::new(alloc);
    for _turn in 0..limit + 2 {
        let Ok(count) = store.pull(name, all.len() as u64, piece.as_mut_slice()) else {
            return Err(Stopped::Fault(FetchFault::Failed));
        };
        if count == 0 {
            return Ok(all);
        }
        if count > limit as usize - all.len() {
            return Err(Stopped::Fault(FetchFault::TooLong));
        }
        let Ok(()) = all.extend_from_slice(&piece[..count]) else {
            return Err(Stopped::Memory);
        };
    }
    unreachable!()
}
