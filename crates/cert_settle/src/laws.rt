//! What the text of settled trees tells.

ghost use Rattle.std.specs.Prelude.{◌≡◌, ◌++◌, [], ◌∷◌, ℕ, List, length};
ghost use Rattle.std.specs.List.{All};
ghost use Rattle.model_line.specs.{declared.script.Script.Script, declared.line.Line.Line};
ghost use Rattle.model_line.specs.{Fits.Fits};
ghost use Rattle.cert_settle.specs.Grammar.{SettleResult, HasOneEach, IsSettleText};
ghost use Rattle.cert_settle.specs.Grammar.{LeavesGrammar};
ghost use Rattle.cert_settle.specs.Text.{part_text, parts_text, settle_text};

use crate::known::laws_below;

/// A text has at most one meaning: the trees and timings that it says of the scripts.
pub fn a_settle_text_has_one_meaning()
    ensures { (line : Line) (scripts : List Script) (parts others : List (List SettleResult))
        (bytes : List ℕ) → IsSettleText line scripts parts bytes →
        IsSettleText line scripts others bytes → parts ≡ others }
{
    laws_below();
}

/// What is said of the scripts has at most one text.
pub fn settle_results_have_one_text()
    ensures { (line : Line) (scripts : List Script) (parts : List (List SettleResult))
        (bytes others : List ℕ) → IsSettleText line scripts parts bytes →
        IsSettleText line scripts parts others → bytes ≡ others }
{}

/// A text leaves the grammar at one line at most, and where it does it says nothing. So
/// `read_settle_text` is good exactly where the text is one, but for want of memory.
pub fn a_settle_text_leaves_at_one_line()
    ensures one { (line : Line) (scripts : List Script) (bytes : List ℕ) (n m : ℕ) →
        LeavesGrammar line scripts bytes n → LeavesGrammar line scripts bytes m → n ≡ m }
    ensures refused { (line : Line) (scripts : List Script) (parts : List (List SettleResult))
        (bytes : List ℕ) (n : ℕ) → LeavesGrammar line scripts bytes n →
        ¬ (IsSettleText line scripts parts bytes) }
{
    laws_below();
}

/// The text of results, one for each terminal of each script, is a text of settled trees that says
/// them.
pub fn printed_results_are_a_settle_text()
    ensures { (line : Line) (scripts : List Script) (parts : List (List SettleResult)) →
        length parts ≡ length scripts → All (Fits line) scripts → All (HasOneEach line) parts →
        IsSettleText line scripts parts (settle_text line scripts parts) }
{
    laws_below();
}

/// The parts of the text grow script by script.
pub fn a_settle_text_grows_by_parts()
    ensures { (line : Line) (scripts : List Script) (parts : List (List SettleResult))
        (script : Script) (results : List SettleResult) → length parts ≡ length scripts →
        parts_text line (scripts ++ script ∷ []) (parts ++ results ∷ [])
        ≡ parts_text line scripts parts ++ part_text line script results }
{}
