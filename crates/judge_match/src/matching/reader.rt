//! Reading the records of a file.

ghost use Rattle.std.specs.Prelude.{◌≤◌, ◌<◌, ◌≡◌, IfOk, length, map};
ghost use Rattle.std.specs.List.{All};
ghost use Rattle.base_memory.specs.Gives.{Gives};
ghost use Rattle.judge_match.specs.matching.Waves.{records_said, seen_of, seen_values};
ghost use Rattle.judge_match.specs.{matching.Seen.AreSeen, matching.Heads.values_of};

use crate::matching::fault::SeenFault;
use crate::matching::heads::Head;
use crate::matching::read::read_heads;
use crate::matching::seen::Seen;
use crate::matching::waves::seen;
use base_memory::{Memory, Stopped};
use model_line::{Line, Script};
use std::alloc::Global;

/// The records of a file, in file order, or its first fault.
pub fn read_seen(
    alloc: Global,
    line: &Line,
    scripts: &[Script],
    bytes: &[u8],
) -> Result<Vec<Seen>, Stopped<SeenFault>>
    requires few { length scripts.now ≤ 64 }
    requires short { length bytes.now ≤ 1048576 }
    ensures said { Gives (λ v. map seen_values v.items) result
        (records_said line.now scripts.now bytes.now) }
    ensures seen { IfOk result (λ v. All (λ s. AreSeen line.now s) v.items) }
    ensures named { IfOk result (λ v. All (λ s. s.script < length scripts.now) v.items) }
{
    let heads = read_heads(alloc, line, scripts, bytes)?;
    Ok(seen_under(alloc, line, &heads)?)
}

// What was seen under each head.
fn seen_under(alloc: Global, line: &Line, heads: &[Head]) -> Result<Vec<Seen>, Memory>
    ensures said { IfOk result (λ v. map seen_values v.items
        ≡ map (seen_of line.now) (map values_of heads.now)) }
    ensures seen { IfOk result (λ v. All (λ s. AreSeen line.now s) v.items) }
{
    let mut all = Vec::new(alloc);
    for head in heads {
        all.push(seen(alloc, line, head)?)?;
    }
    Ok(all)
}
