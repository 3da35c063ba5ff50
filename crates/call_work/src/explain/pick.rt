//! Which record of a file is asked about.

ghost use Rattle.std.specs.Prelude.{◌≡◌, Ok, Err, map, IfOk, MatchResult};
ghost use Rattle.std.specs.List.{Contains};
ghost use Rattle.judge_match.specs.matching.Waves.{seen_values};
ghost use Rattle.judge_match.specs.declared.matching.seen.Seen.{Seen};
ghost use Rattle.call_work.specs.explain.Picked.{picked, record_of};
ghost use Rattle.call_work.specs.declared.explain.unpicked.Unpicked.{Unpicked};

use crate::explain::unpicked::Unpicked;
use judge_match::matching::Seen;

/// The record of the script that is named; where none is, the one record that there is.
pub fn pick(which: Option<u32>, records: &[Seen]) -> Result<&Seen, Unpicked>
    ensures among { IfOk result (λ seen. Contains records.now seen.now) }
    ensures picked { MatchResult result
        (λ seen. picked which (map seen_values records.now) ≡ Ok (seen_values seen.now))
        (λ why. picked which (map seen_values records.now) ≡ Err why) }
{
    match which {
        Some(script) => record_with(script, records),
        None => {
            if records.len() == 1 {
                Ok(&records[0])
            } else {
                Err(Unpicked::Several(records.len()))
            }
        }
    }
}

// The first record of a script.
fn record_with(script: u32, records: &[Seen]) -> Result<&Seen, Unpicked>
    ensures among { IfOk result (λ seen. Contains records.now seen.now) }
    ensures picked { MatchResult result
        (λ seen. record_of script (map seen_values records.now) ≡ Ok (seen_values seen.now))
        (λ why. record_of script (map seen_values records.now) ≡ Err why) }
{
    for i in 0..records.len() {
        if records[i].script == script {
            return Ok(&records[i]);
        }
    }
    Err(Unpicked::Missing)
}
