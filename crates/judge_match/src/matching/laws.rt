//! The laws of records.

ghost use Rattle.std.specs.Prelude.{◌≡◌, ◌<◌, ℕ, Bool, List, Ok};
ghost use Rattle.std.specs.List.{All};
ghost use Rattle.model_logic.specs.Histories.{History, IsLineHistory, IsSameHistory};
ghost use Rattle.model_logic.specs.Choice.{Choice, IsInside};
ghost use Rattle.model_line.specs.{declared.line.Line.Line, declared.script.Script.Script};
ghost use Rattle.model_line.specs.Parameters.{terminal_count};
ghost use Rattle.judge_match.specs.{declared.matching.seen.Seen.Seen, matching.Seen.AreSeen, matching.Seen.seen_history};
ghost use Rattle.judge_match.specs.{declared.matching.seen.Match.Match, matching.Clash.IsAllowed, matching.Match.IsMatch};
ghost use Rattle.judge_match.specs.matching.Recorded.{IsRecordOf};
ghost use Rattle.judge_match.specs.matching.Waves.{SeenValues, records_said};

use model_logic::laws::line_laws;

/// What a choice of delays inside the declared intervals gives is allowed everywhere. So no choice
/// gives a record that is not allowed at some place.
pub fn what_a_choice_gives_is_allowed()
    ensures { (line : Line) (script : Script) (seen : Seen) (choice : Choice) (h : History) →
        AreSeen line seen → IsInside line choice → IsLineHistory line script choice h →
        IsSameHistory line h (seen_history seen) →
        (trip : Bool) (k t : ℕ) → k < terminal_count line → t < line.horizon →
        IsAllowed line script seen trip k t }
{
    line_laws();
}

/// What is settled of a record is one thing: the first place where it cannot be, or else the first
/// candidate that gives it, or else neither.
pub fn a_record_is_settled_once()
    ensures { (line : Line) (script : Script) (seen : Seen) (a b : Match) →
        IsMatch line script seen a → IsMatch line script seen b → a ≡ b }
{}

/// Each record that a file says is of one of the scripts, and tells each key and each trip of the
/// line at every tick.
pub fn a_file_says_records_of_the_line()
    ensures { (line : Line) (scripts : List Script) (bytes : List ℕ) (records : List SeenValues) →
        records_said line scripts bytes ≡ Ok records →
        All (IsRecordOf line scripts) records }
{}
