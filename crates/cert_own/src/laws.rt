//! The laws of the program's own certificate.

ghost use Rattle.std.specs.Prelude.{◌≡◌, ◌≤◌, ◌∷◌, ◌++◌, [], List, length};
ghost use Rattle.std.specs.List.{All};
ghost use Rattle.run_signal.specs.declared.tern.Tern.{Tern};
ghost use Rattle.model_line.specs.{declared.line.Line.Line, declared.script.Script.Script};
ghost use Rattle.model_line.specs.Fits.{Fits};
ghost use Rattle.model_logic.specs.Histories.{PairHistory, IsPairHistory};
ghost use Rattle.model_logic.specs.Choice.{declared_box};
ghost use Rattle.cert_claims.specs.text.Grammar.{Claims, IsCertificate};
ghost use Rattle.cert_claims.specs.text.Text.{CanBeWritten, certificate_text, part_text, parts_text};
ghost use Rattle.judge_verdict.specs.declared.verdict.verdict.Verdict.{Verdict};
ghost use Rattle.cert_own.specs.Piece.{claims_of};
ghost use Rattle.judge_verdict.specs.verdict.Verdicts.{AreKeys, AreVerdicts};
ghost use Rattle.cert_claims.specs.declared.check.counts.Counts.{Counts};
ghost use Rattle.cert_claims.specs.declared.check.fault.CheckFault.{CheckFault};
ghost use Rattle.cert_claims.specs.check.Check.{IsAccepted, IsCheckFault};
ghost use Rattle.cert_claims.specs.{check.Counts.AreCounts, check.Counts.all_verdicts, check.Verdicts.AreAccepted};
ghost use Rattle.cert_own.specs.Certified.{IsCertified, AreCertified};

use crate::known::laws_below;
use cert_claims::check::a_fault_refuses_the_certificate;
use cert_claims::text::{
    a_certificate_is_its_parts, a_text_has_one_meaning, printed_claims_are_a_certificate,
};
use model_line::laws::parameters_are_numbered;

/// Keys and verdicts that `certify` may answer for a script are what is certified of it, as
/// `cert_piece` writes them.
pub fn answers_are_certified()
    ensures { (line : Line) (script : Script) (keys : List (List Tern)) (verdicts : List Verdict) →
        ((w : PairHistory) → IsPairHistory line script (declared_box line) w →
        AreKeys line w keys) →
        ((w : PairHistory) → IsPairHistory line script (declared_box line) w →
        AreVerdicts line script w verdicts) →
        IsCertified line script (claims_of keys verdicts) }
{
    laws_below();
}

/// What is certified of scripts that fit, as claims, is accepted: of each script, and as the one
/// text that says it, with the counts of its verdicts.
pub fn what_is_certified_is_accepted()
    ensures written { (line : Line) (script : Script) (claims : Claims) →
        IsCertified line script claims → CanBeWritten line claims }
    ensures script { (line : Line) (script : Script) (claims : Claims) → Fits line script →
        IsCertified line script claims → AreAccepted line script claims }
    // The text is a certificate of the scripts that says just these claims;
    ensures certificate { (line : Line) (scripts : List Script) (claims : List Claims) →
        All (Fits line) scripts → AreCertified line scripts claims →
        IsCertificate line scripts claims (certificate_text line scripts claims) }
    // it is accepted, with their counts
    ensures accepted { (line : Line) (scripts : List Script) (claims : List Claims)
        (counts : Counts) → All (Fits line) scripts → AreCertified line scripts claims →
        AreCounts (all_verdicts claims) counts →
        IsAccepted line scripts (certificate_text line scripts claims) counts }
    // and with no others;
    ensures counts { (line : Line) (scripts : List Script) (claims : List Claims)
        (counts : Counts) → All (Fits line) scripts → AreCertified line scripts claims →
        IsAccepted line scripts (certificate_text line scripts claims) counts →
        AreCounts (all_verdicts claims) counts }
    // and it has no fault.
    ensures no_fault { (line : Line) (scripts : List Script) (claims : List Claims)
        (fault : CheckFault) → All (Fits line) scripts → AreCertified line scripts claims →
        ¬ (IsCheckFault line scripts (certificate_text line scripts claims) fault) }
{
    laws_below();
    a_text_has_one_meaning();
    printed_claims_are_a_certificate();
    a_fault_refuses_the_certificate();
}

/// A certificate grows script by script.
pub fn a_certificate_grows_by_parts()
    ensures text { (line : Line) (scripts : List Script) (claims : List Claims) (script : Script)
        (said : Claims) → length claims ≡ length scripts →
        parts_text line (scripts ++ script ∷ []) (claims ++ said ∷ [])
        ≡ parts_text line scripts claims ++ part_text line script said }
    ensures claims { (line : Line) (scripts : List Script) (claims : List Claims)
        (script : Script) (said : Claims) → AreCertified line scripts claims →
        IsCertified line script said →
        AreCertified line (scripts ++ script ∷ []) (claims ++ said ∷ []) }
    ensures many { (line : Line) (scripts : List Script) (claims : List Claims) →
        AreCertified line scripts claims → length claims ≡ length scripts }
{}

/// Scripts that fit have exactly one list of claims that is certified of them: each has one list of
/// keys and one of verdicts.
pub fn each_script_has_one_certificate()
    ensures keys { (line : Line) (script : Script) (w : PairHistory) →
        IsPairHistory line script (declared_box line) w →
        (keys : List (List Tern)) × AreKeys line w keys }
    ensures verdicts { (line : Line) (script : Script) (w : PairHistory) → Fits line script →
        (verdicts : List Verdict) × AreVerdicts line script w verdicts }
    ensures one_key_list { (line : Line) (script : Script) (v w : PairHistory)
        (a b : List (List Tern)) → IsPairHistory line script (declared_box line) v →
        IsPairHistory line script (declared_box line) w → AreKeys line v a → AreKeys line w b →
        a ≡ b }
    ensures one_verdict_list { (line : Line) (script : Script) (v w : PairHistory)
        (a b : List Verdict) → Fits line script →
        IsPairHistory line script (declared_box line) v →
        IsPairHistory line script (declared_box line) w →
        AreVerdicts line script v a → AreVerdicts line script w b → a ≡ b }
    ensures exists { (line : Line) (scripts : List Script) → All (Fits line) scripts →
        (claims : List Claims) × AreCertified line scripts claims }
    ensures only { (line : Line) (scripts : List Script) (a b : List Claims) →
        All (Fits line) scripts → AreCertified line scripts a → AreCertified line scripts b →
        a ≡ b }
{
    laws_below();
}

/// The certificate of at most 64 scripts that fit, of whatever can be written of them, is no longer than one
/// that is read may be.
pub fn a_certificate_is_short()
    ensures { (line : Line) (scripts : List Script) (claims : List Claims) → length scripts ≤ 64 →
        length claims ≡ length scripts → All (Fits line) scripts →
        All (CanBeWritten line) claims →
        length (certificate_text line scripts claims) ≤ 4194304 }
{
    a_certificate_is_its_parts();
    parameters_are_numbered();
}
