//! The laws of acceptance.

ghost use Rattle.std.specs.Prelude.{◌≡◌, ℕ, List};
ghost use Rattle.model_line.specs.{declared.line.Line.Line, declared.script.Script.Script};
ghost use Rattle.cert_claims.specs.text.Grammar.{Claims, IsCertificate, LeavesGrammar};
ghost use Rattle.cert_claims.specs.declared.check.claim.ClaimFault.{ClaimFault};
ghost use Rattle.cert_claims.specs.declared.check.fault.CheckFault.{CheckFault};
ghost use Rattle.cert_claims.specs.check.Check.{IsAccepted, IsCheckFault};
ghost use Rattle.cert_claims.specs.declared.check.no.NoFault.{NoFault};
ghost use Rattle.cert_claims.specs.{check.Verdicts.AreAccepted, check.Verdicts.IsFirstFault};
ghost use Rattle.cert_claims.specs.{check.NoFaults.IsNoFault, check.ScriptLaws.IsOneText, check.ScriptLaws.AreApart};
ghost use Rattle.cert_claims.specs.{declared.check.counts.Counts.Counts, check.Refutations.IsRefutation};

use crate::text::{a_text_has_one_meaning, a_text_leaves_at_one_line};
use model_logic::laws::{each_choice_has_one_history, each_line_has_a_choice_inside};
use model_timing::timings_inside_are_choices_inside;

/// Claims that have a first fault are not accepted. So `check_claims` is good exactly where they
/// are, but for want of memory.
pub fn a_fault_refuses_the_claims()
    ensures { (line : Line) (script : Script) (said : Claims) (fault : ClaimFault) →
        IsFirstFault line script said fault →
        ¬ (AreAccepted line script said) }
{
    each_choice_has_one_history();
    each_line_has_a_choice_inside();
    timings_inside_are_choices_inside();
}

/// Claims have at most one first fault.
pub fn claims_have_one_first_fault()
    ensures { (line : Line) (script : Script) (said : Claims) (fault other : ClaimFault) →
        IsFirstFault line script said fault → IsFirstFault line script said other →
        fault ≡ other }
{
    each_choice_has_one_history();
    each_line_has_a_choice_inside();
    timings_inside_are_choices_inside();
}

/// The numbers of a `no` have one fault at most, and where they have one they refute nothing.
pub fn a_no_has_one_fault()
    ensures one { (line : Line) (script : Script) (k : ℕ) (values : List ℕ) (fault other : NoFault) →
        IsNoFault line script k values fault → IsNoFault line script k values other →
        fault ≡ other }
    ensures refused { (line : Line) (script : Script) (k : ℕ) (values : List ℕ) (fault : NoFault) →
        IsNoFault line script k values fault → ¬ (IsRefutation line script k values) }
{
    each_choice_has_one_history();
    each_line_has_a_choice_inside();
    timings_inside_are_choices_inside();
}

// A text says one thing or leaves its grammar at one line, and claims are accepted or have one first
// fault.
fn texts_and_claims_are_told_apart()
    ensures texts { (line : Line) (scripts : List Script) (bytes : List ℕ) →
        IsOneText (λ claims. IsCertificate line scripts claims bytes)
        (LeavesGrammar line scripts bytes) }
    ensures claims { (line : Line) →
        AreApart (AreAccepted line) (IsFirstFault line) }
{
    a_fault_refuses_the_claims();
    claims_have_one_first_fault();
    a_text_has_one_meaning();
    a_text_leaves_at_one_line();
}

/// A certificate that has a first fault is not accepted, whatever the counts. So `check` is good
/// exactly where there is none, but for want of memory.
pub fn a_fault_refuses_the_certificate()
    ensures { (line : Line) (scripts : List Script) (bytes : List ℕ) (counts : Counts)
        (fault : CheckFault) → IsCheckFault line scripts bytes fault → ¬ (IsAccepted line scripts bytes counts) }
{
    texts_and_claims_are_told_apart();
}

/// A certificate has at most one first fault. So the error of `check` is the fault of the text, but
/// for want of memory.
pub fn a_certificate_has_one_first_fault()
    ensures { (line : Line) (scripts : List Script) (bytes : List ℕ) (fault other : CheckFault) →
        IsCheckFault line scripts bytes fault → IsCheckFault line scripts bytes other →
        fault ≡ other }
{
    texts_and_claims_are_told_apart();
}
