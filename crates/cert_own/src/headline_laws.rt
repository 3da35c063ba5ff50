//! The laws of what verdicts say.

ghost use Rattle.std.specs.Prelude.{◌≡◌, ◌++◌, ℕ, Bool, true, false, List, Some, slice_get};
ghost use Rattle.std.specs.List.{All, list_any};
ghost use Rattle.model_line.specs.{declared.line.Line.Line, declared.script.Script.Script};
ghost use Rattle.model_line.specs.Fits.{Fits};
ghost use Rattle.cert_claims.specs.text.Grammar.{Claims, HasOneEach, Verdict};
ghost use Rattle.cert_claims.specs.text.Text.{certificate_text};
ghost use Rattle.cert_claims.specs.declared.check.counts.Counts.{Counts};
ghost use Rattle.cert_claims.specs.{check.Check.IsAccepted, check.Verdicts.AreAccepted};
ghost use Rattle.cert_own.specs.Certified.{IsCertified, AreCertified};
ghost use Rattle.cert_claims.specs.check.Counts.{all_verdicts, is_no, is_undecided};
ghost use Rattle.judge_match.specs.{matching.Answer.IsMatchAnswer, matching.Recorded.IsRecordOf};
ghost use Rattle.judge_match.specs.matching.Waves.{SeenValues};
ghost use Rattle.cert_own.specs.Matched.{AllGiven, HasMatch, HoldsOfRecord, HoldsOfRecordAt};
ghost use Rattle.cert_own.specs.Matched.{HoldsOfSomeRecord, IsGivenByNone, IsOpenRecord};
ghost use Rattle.cert_own.specs.Matched.{Matched};
ghost use Rattle.cert_own.specs.Obligations.{AllMet, HoldsAsAccepted, HoldsAsCertified};
ghost use Rattle.cert_own.specs.Obligations.{HoldsSomewhere, IsFailedBySome, IsUnknown};
ghost use Rattle.cert_own.specs.Printed.{HasVerdict, HoldsOf};

use crate::laws::what_is_certified_is_accepted;
use judge_match::matching::what_a_choice_gives_is_allowed;
use model_fine::fine_laws::{
    fine_histories_are_covered, the_rule_speaks_for_covered_fine_histories,
};
use model_line::laws::declared_intervals_are_in_order;
use model_logic::laws::line_laws;
use model_timing::{candidates_are_inside, timings_inside_are_choices_inside};

/// Where claims are accepted, what their verdicts say is true, a `yes` of every choice of fractions: of
/// a script, and of each whole line of a certificate, whoever wrote it.
pub fn what_is_accepted_is_true()
    ensures script { (line : Line) (script : Script) (said : Claims) (k : ℕ) (verdict : Verdict) →
        Fits line script → HasOneEach line said → AreAccepted line script said →
        slice_get said.verdicts k ≡ Some verdict → HoldsAsAccepted verdict line script k }
    ensures text { (line : Line) (scripts : List Script) (bytes : List ℕ) (counts : Counts)
        (name terminal : List ℕ) (verdict : Verdict) → All (Fits line) scripts →
        IsAccepted line scripts bytes counts → HasVerdict bytes name terminal verdict →
        HoldsOf line scripts name terminal (HoldsAsAccepted verdict) }
{
    line_laws();
    fine_histories_are_covered();
    the_rule_speaks_for_covered_fine_histories();
    timings_inside_are_choices_inside();
}

/// What is certified is true: of a script, and of each whole line of a front of the certificate.
pub fn what_is_certified_is_true()
    ensures script { (line : Line) (script : Script) (said : Claims) (k : ℕ) (verdict : Verdict) →
        Fits line script → IsCertified line script said →
        slice_get said.verdicts k ≡ Some verdict → HoldsAsCertified verdict line script k }
    ensures text { (line : Line) (scripts : List Script) (claims : List Claims)
        (front rest name terminal : List ℕ) (verdict : Verdict) → All (Fits line) scripts →
        AreCertified line scripts claims → front ++ rest ≡ certificate_text line scripts claims →
        HasVerdict front name terminal verdict →
        HoldsOf line scripts name terminal (HoldsAsCertified verdict) }
    // Where no verdict is no or undecided, every choice of fractions meets all obligations; where
    // some is no, some choice inside fails one; where some is undecided, one is unknown.
    ensures all { (line : Line) (scripts : List Script) (claims : List Claims) →
        All (Fits line) scripts → AreCertified line scripts claims →
        list_any is_no (all_verdicts claims) ≡ false →
        list_any is_undecided (all_verdicts claims) ≡ false → AllMet line scripts }
    ensures some_no { (line : Line) (scripts : List Script) (claims : List Claims) →
        All (Fits line) scripts → AreCertified line scripts claims →
        list_any is_no (all_verdicts claims) ≡ true →
        HoldsSomewhere line scripts IsFailedBySome }
    ensures some_undecided { (line : Line) (scripts : List Script) (claims : List Claims) →
        All (Fits line) scripts → AreCertified line scripts claims →
        list_any is_undecided (all_verdicts claims) ≡ true →
        HoldsSomewhere line scripts IsUnknown }
{
    line_laws();
    fine_histories_are_covered();
    the_rule_speaks_for_covered_fine_histories();
    candidates_are_inside();
    timings_inside_are_choices_inside();
    what_is_accepted_is_true();
    what_is_certified_is_accepted();
}

/// What `match` says of records of the field is true: each whole line of a front of its text, and its
/// status of all of them.
pub fn what_is_matched_is_true()
    ensures text { (line : Line) (scripts : List Script) (records : List SeenValues)
        (some_impossible some_open : Bool) (text front rest name : List ℕ) (i : ℕ)
        (said : Matched) → All (Fits line) scripts → All (IsRecordOf line scripts) records →
        IsMatchAnswer line scripts records some_impossible some_open text →
        front ++ rest ≡ text → HasMatch front i name said →
        HoldsOfRecordAt line scripts records i name (HoldsOfRecord said) }
    // Where no record is impossible or open, some choice gives each; where some is impossible, no
    // choice gives it; where some is open, nothing of it is excluded.
    ensures all { (line : Line) (scripts : List Script) (records : List SeenValues)
        (text : List ℕ) → All (IsRecordOf line scripts) records →
        IsMatchAnswer line scripts records false false text → AllGiven line scripts records }
    ensures some_impossible { (line : Line) (scripts : List Script) (records : List SeenValues)
        (some_open : Bool) (text : List ℕ) → All (IsRecordOf line scripts) records →
        IsMatchAnswer line scripts records true some_open text →
        HoldsOfSomeRecord line scripts records IsGivenByNone }
    ensures some_open { (line : Line) (scripts : List Script) (records : List SeenValues)
        (some_impossible : Bool) (text : List ℕ) → All (IsRecordOf line scripts) records →
        IsMatchAnswer line scripts records some_impossible true text →
        HoldsOfSomeRecord line scripts records IsOpenRecord }
{
    line_laws();
    declared_intervals_are_in_order();
    candidates_are_inside();
    timings_inside_are_choices_inside();
    what_a_choice_gives_is_allowed();
}
