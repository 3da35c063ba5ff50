//! What is said of a record.

ghost use Rattle.std.specs.Prelude.{◌≡◌, ◌<◌, MatchResult, Ok, length, map};
ghost use Rattle.std.specs.List.{All};
ghost use Rattle.call_answer.specs.Answers.{Says};
ghost use Rattle.base_memory.specs.Gives.{OfFault};
ghost use Rattle.judge_match.specs.matching.Seen.{AreSeen};
ghost use Rattle.judge_match.specs.matching.Waves.{records_said, seen_values};
ghost use Rattle.call_work.specs.explain.Explain.{IsAsked, IsExplainFault, explain_answer};

use crate::explain::answer::said_of;
use crate::explain::asked::Asked;
use crate::explain::fault::ExplainFault;
use crate::explain::pick::pick;
use base_memory::Stopped;
use call_answer::Said;
use judge_match::explain::explain;
use judge_match::matching::{Seen, read_seen};
use std::alloc::Global;

/// What is said of a record: the changes of a timing that explains it, or the timing as a file, with
/// status 0; that no timing inside does, with status 1; or that it is open, with status 2.
pub fn explain_said(alloc: Global, asked: &Asked) -> Result<Said, Stopped<ExplainFault>>
    requires { IsAsked asked.now }
    ensures { MatchResult result
        (Says (explain_answer asked.now.compiled.line.now asked.now.scripts.now asked.now.record.now
        asked.now.script asked.now.within asked.now.form))
        (OfFault (IsExplainFault asked.now.compiled.line.now asked.now.scripts.now asked.now.record.now
        asked.now.script)) }
{
    if asked.scripts.len() > 64 {
        return Err(Stopped::Fault(ExplainFault::TooManyScripts(asked.scripts.len())));
    }
    let records = match read_seen(alloc, asked.compiled.line, asked.scripts, asked.record) {
        Ok(records) => records,
        Err(Stopped::Fault(fault)) => return Err(Stopped::Fault(ExplainFault::Record(fault))),
        Err(Stopped::Memory) => return Err(Stopped::Memory),
    };
    said_among(alloc, asked, &records)
}

// What is said of one of these records.
fn said_among(alloc: Global, asked: &Asked, records: &[Seen]) -> Result<Said, Stopped<ExplainFault>>
    requires seen { All (λ s. AreSeen asked.now.compiled.line.now s) records.now }
    requires named { All (λ s. s.script < length asked.now.scripts.now) records.now }
    requires said { records_said asked.now.compiled.line.now asked.now.scripts.now
        asked.now.record.now ≡ Ok (map seen_values records.now) }
    ensures { MatchResult result
        (Says (explain_answer asked.now.compiled.line.now asked.now.scripts.now asked.now.record.now
        asked.now.script asked.now.within asked.now.form))
        (OfFault (IsExplainFault asked.now.compiled.line.now asked.now.scripts.now asked.now.record.now
        asked.now.script)) }
{
    let seen = match pick(asked.script, records) {
        Ok(seen) => seen,
        Err(why) => return Err(Stopped::Fault(ExplainFault::Unpicked(why))),
    };
    let script = &asked.scripts[seen.script as usize];
    let explanation = explain(
        alloc,
        &asked.compiled,
        script,
        seen,
        asked.within,
        asked.analyses,
    )?;
    Ok(said_of(alloc, asked.compiled.line, asked.form, explanation)?)
}
