//! The first candidate that gives a record.

ghost use Rattle.std.specs.Prelude.{◌≡◌, ◌<◌, IfOk, MatchOption};
ghost use Rattle.model_timing.specs.Candidates.{candidate_count as count_of};
ghost use Rattle.judge_match.specs.matching.Candidates.{IsFirstGiving};
ghost use Rattle.judge_match.specs.{matching.Match.NoneGives, matching.Seen.AreSeen};

use crate::matching::block::giving_lanes;
use crate::matching::recorded::seen_tracks;
use crate::matching::seen::Seen;
use model_line::laws::parameters_are_numbered;
use model_line::{Memory, Script};
use model_timing::{candidate_count, candidate_in};
use net_gates::Compiled;
use std::alloc::Global;

/// The number of the first candidate that gives what was seen. Candidates are run in blocks of 64.
pub fn first_giving(
    alloc: Global,
    compiled: &Compiled<'_>,
    script: &Script,
    seen: &Seen,
) -> Result<Option<u32>, Memory>
    requires seen { AreSeen compiled.now.line.now seen.now }
    ensures { IfOk result (λ found. MatchOption found
        (NoneGives compiled.now.line.now script.now seen.now (count_of compiled.now.line.now))
        (λ number. IsFirstGiving compiled.now.line.now script.now seen.now number)) }
{
    parameters_are_numbered();
    let recorded = seen_tracks(alloc, compiled.line, seen)?;
    let count = candidate_count(compiled.line);
    let mut first = 0;
    'next_block: while first < count {
        let lanes = giving_lanes(alloc, compiled, script, first, &recorded)?;
        let lane = lanes.first();
        if lane < 64 {
            return Ok(Some(candidate_in(compiled.line, first, lane)));
        }
        first += 64;
    }
    Ok(None)
}
