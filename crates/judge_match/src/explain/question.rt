//! What is asked.

ghost use Rattle.std.specs.Prelude.{◌≡◌, IfOk};
ghost use Rattle.judge_match.specs.matching.Seen.{AreSeen};
ghost use Rattle.judge_match.specs.explain.Asked.{IsQuestion};

use crate::explain::recorded::{Recorded, kept_of};
use crate::matching::Seen;
use model_line::{Memory, Script};
use net_gates::Compiled;
use std::alloc::Global;

/// A script of a line, with the line's net, and a record of it: which timing has its changes, each
/// at most so many ticks away?
#[derive(Drop)]
pub struct Question<'a> {
    pub compiled: Compiled<'a>,
    pub script: &'a Script,
    pub seen: &'a Seen,
    pub within: u32,
    /// What is kept of each key that was recorded, and of each trip.
    pub keys: Vec<Recorded>,
    pub trips: Vec<Recorded>,
}

impl<'a> Question<'a> {
    pub fn new(
        alloc: Global,
        compiled: &Compiled<'a>,
        script: &'a Script,
        seen: &'a Seen,
        within: u32,
    ) -> Result<Question<'a>, Memory>
        requires seen { AreSeen compiled.now.line.now seen.now }
        ensures question { IfOk result (λ q. IsQuestion q) }
        ensures line { IfOk result (λ q. q.compiled.line.now ≡ compiled.now.line.now) }
        ensures script { IfOk result (λ q. q.script.now ≡ script.now) }
        ensures seen { IfOk result (λ q. q.seen.now ≡ seen.now) }
        ensures within { IfOk result (λ q. q.within ≡ within) }
    {
        let keys = kept_of(alloc, compiled.line, within, &seen.keys)?;
        let trips = kept_of(alloc, compiled.line, within, &seen.trips)?;
        Ok(Question {
            compiled: *compiled,
            script,
            seen,
            within,
            keys,
            trips,
        })
    }
}
