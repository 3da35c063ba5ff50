//! The laws of what a command answers.

ghost use Rattle.std.specs.Prelude.{◌≡◌, ◌++◌, ℕ, List};
ghost use Rattle.std.specs.List.{All};
ghost use Rattle.model_line.specs.{declared.line.Line.Line, declared.script.Script.Script};
ghost use Rattle.model_line.specs.Fits.{Fits};
ghost use Rattle.model_timing.specs.{Inside.IsTimingInside};
ghost use Rattle.model_timing.specs.NamedValues.{NamedValues};
ghost use Rattle.cert_claims.specs.{text.Grammar.Claims, text.Text.certificate_text, text.Text.parts_text};
ghost use Rattle.cert_own.specs.Certified.{AreCertified, IsCertified};
ghost use Rattle.call_pilot.specs.{commands.Certify.certify_answer, commands.Play.IsPlayText};
ghost use Rattle.call_answer.specs.declared.done.Done.{Done};

use cert_claims::text::{CERT_END, CERT_HEAD, a_certificate_is_its_parts};
use cert_own::{each_script_has_one_certificate, what_is_certified_is_accepted};
use model_logic::laws::{each_choice_has_one_history, each_line_has_a_choice_inside};
use model_timing::timings_inside_are_choices_inside;

/// A line has exactly one play text for scripts and timings inside its declared intervals.
pub fn each_play_has_one_text()
    ensures exists { (line : Line) (scripts : List Script) (timings : List NamedValues) →
        All (λ timing. IsTimingInside line timing.timing) timings →
        (text : List ℕ) × IsPlayText line scripts timings text }
    ensures only { (line : Line) (scripts : List Script) (timings : List NamedValues)
        (a b : List ℕ) → All (λ timing. IsTimingInside line timing.timing) timings →
        IsPlayText line scripts timings a → IsPlayText line scripts timings b → a ≡ b }
{
    each_choice_has_one_history();
    each_line_has_a_choice_inside();
    timings_inside_are_choices_inside();
}

/// Scripts that fit have exactly one certificate, with one status.
pub fn each_certificate_has_one_text()
    ensures exists { (line : Line) (scripts : List Script) → All (Fits line) scripts →
        (s : Done) × (text : List ℕ) × certify_answer line scripts s text }
    ensures only { (line : Line) (scripts : List Script) (s t : Done) (a b : List ℕ) →
        All (Fits line) scripts → certify_answer line scripts s a →
        certify_answer line scripts t b → (s ≡ t) × (a ≡ b) }
{
    each_script_has_one_certificate();
}

// What is certified of scripts that fit exists, of one script and of several, and its certificate is
// its head, the part of each script in order, and its end.
pub(crate) fn a_certificate_is_made_of_parts()
    ensures script { (line : Line) (script : Script) → Fits line script →
        (claims : Claims) × IsCertified line script claims }
    ensures scripts { (line : Line) (scripts : List Script) → All (Fits line) scripts →
        (claims : List Claims) × AreCertified line scripts claims }
    ensures text { (line : Line) (scripts : List Script) (claims : List Claims) →
        AreCertified line scripts claims → certificate_text line scripts claims
        ≡ (CERT_HEAD.now ++ parts_text line scripts claims) ++ CERT_END.now }
{
    a_certificate_is_its_parts();
    each_script_has_one_certificate();
    what_is_certified_is_accepted();
}
