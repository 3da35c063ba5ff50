//! What is settled of a record.

ghost use Rattle.std.specs.Prelude.{◌≡◌, ℕ, Bool, IfOk};
ghost use Rattle.run_signal.specs.declared.tern.Tern.{Tern};
ghost use Rattle.model_logic.specs.Choice.{Choice, IsInside};
ghost use Rattle.model_logic.specs.Histories.{History, IsLineHistory, IsSameHistory};
ghost use Rattle.judge_match.specs.matching.Seen.{AreSeen, seen_history};
ghost use Rattle.judge_match.specs.{declared.matching.seen.Match.Match, matching.Match.IsMatch, matching.MatchText.IsWritten};

use crate::matching::clash::first_clash;
use crate::matching::giving::first_giving;
use crate::matching::laws::what_a_choice_gives_is_allowed;
use crate::matching::seen::{Match, Seen};
use model_line::{Memory, Script};
use model_timing::{candidate, candidates_are_inside};
use net_gates::Compiled;
use run_waves::derived::gate_waves;
use std::alloc::Global;

/// Settles a record of a script: impossible at the first place where what follows from the keys
/// that were seen does not allow what was seen; else explained by the first candidate that gives
/// it; else unsettled.
pub fn settle(
    alloc: Global,
    compiled: &Compiled<'_>,
    script: &Script,
    seen: &Seen,
) -> Result<Match, Memory>
    requires seen { AreSeen compiled.now.line.now seen.now }
    ensures settled { IfOk result (λ found.
        IsMatch compiled.now.line.now script.now seen.now found) }
    // It can be written as a line.
    ensures written { IfOk result (λ found. IsWritten compiled.now.line.now found) }
    // Impossible: no choice of delays inside the declared intervals gives the record.
    ensures impossible { IfOk result (λ found. (k t : ℕ) (trip level : Bool) (derived : Tern) →
        found ≡ Match.Impossible k trip t level derived →
        (choice : Choice) (h : History) → IsInside compiled.now.line.now choice →
        IsLineHistory compiled.now.line.now script.now choice h →
        ¬ (IsSameHistory compiled.now.line.now h (seen_history seen.now))) }
{
    what_a_choice_gives_is_allowed();
    candidates_are_inside();
    let waves = gate_waves(alloc, compiled, script, &seen.keys)?;
    if let Some(clash) = first_clash(compiled, seen, &waves) {
        return Ok(Match::Impossible {
            terminal: clash.terminal,
            trip: clash.trip,
            tick: clash.tick,
            level: clash.level,
            derived: clash.derived,
        });
    }
    match first_giving(alloc, compiled, script, seen)? {
        Some(number) => Ok(Match::Explained(candidate(alloc, compiled.line, number)?)),
        None => Ok(Match::Unsettled),
    }
}
