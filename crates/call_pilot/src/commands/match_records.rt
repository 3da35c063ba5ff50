//! The command `match`: whether some choice of delays explains each record of the field.
ghost use Rattle.std.specs.Prelude.{◌<◌, IfOk, length, map};
ghost use Rattle.std.specs.List.{All};
ghost use Rattle.judge_match.specs.{matching.Seen.AreSeen, matching.Waves.seen_values};
ghost use Rattle.call_pilot.specs.commands.Match.{match_answer as answer_of};
ghost use Rattle.call_answer.specs.{Answers.Says, Study.IsStudy};

use crate::commands::found::Found;
use call_answer::{Said, Study};
use judge_match::matching::{Seen, match_answer};
use model_line::Memory;
use std::alloc::Global;

/// A line for each record, with the status of all.
pub fn match_records(alloc: Global, study: &Study, records: &[Seen]) -> Result<Said, Memory>
    requires study { IsStudy study.now }
    requires seen { All (λ seen. AreSeen study.now.line seen) records.now }
    requires named { All (λ seen. seen.script < length study.now.scripts.items) records.now }
    ensures { IfOk result (Says (answer_of study.now.line study.now.scripts.items
        (map seen_values records.now))) }
{
    let answer = match_answer(alloc, &study.compiled(), study.scripts.as_slice(), records)?;
    let found = Found {
        some_no: answer.impossible,
        some_open: answer.unsettled,
    };
    Ok(Said {
        status: found.status(),
        text: answer.text,
    })
}
