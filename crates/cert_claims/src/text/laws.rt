//! What the text of a certificate tells.

ghost use Rattle.std.specs.Prelude.{◌≡◌, ◌≤◌, ◌+◌, ◌*◌, ℕ, List, length};
ghost use Rattle.std.specs.List.{All};
ghost use Rattle.model_line.specs.{Fits.Fits, declared.line.Line.Line};
ghost use Rattle.model_line.specs.declared.script.Script.{Script};
ghost use Rattle.cert_claims.specs.text.Text.{CanBeWritten, certificate_text};
ghost use Rattle.cert_claims.specs.text.Grammar.{Claims, IsCertificate, LeavesGrammar};

use run_waves::waves::{texts_tell_waves, the_text_of_a_wave_is_one_line};

/// A text is a certificate of the scripts with at most one meaning.
pub fn a_text_has_one_meaning()
    ensures { (line : Line) (scripts : List Script) (claims others : List Claims)
        (bytes : List ℕ) → IsCertificate line scripts claims bytes →
        IsCertificate line scripts others bytes → claims ≡ others }
{
    texts_tell_waves();
}

/// What is claimed of the scripts has at most one text.
pub fn claims_have_one_text()
    ensures { (line : Line) (scripts : List Script) (claims : List Claims)
        (bytes others : List ℕ) → IsCertificate line scripts claims bytes →
        IsCertificate line scripts claims others → bytes ≡ others }
{}

/// A text leaves the grammar at one line at most, and where it does it is no certificate. So
/// `read_certificate` is good exactly where the text is one, but for want of memory. It leaves it
/// early, however long it is: at most one line after the lines of the scripts, seven for each.
pub fn a_text_leaves_at_one_line()
    ensures one { (line : Line) (scripts : List Script) (bytes : List ℕ) (n m : ℕ) →
        LeavesGrammar line scripts bytes n → LeavesGrammar line scripts bytes m → n ≡ m }
    ensures refused { (line : Line) (scripts : List Script) (claims : List Claims)
        (bytes : List ℕ) (n : ℕ) → LeavesGrammar line scripts bytes n →
        ¬ (IsCertificate line scripts claims bytes) }
    ensures early { (line : Line) (scripts : List Script) (bytes : List ℕ) (n : ℕ) →
        LeavesGrammar line scripts bytes n → n ≤ 7 * length scripts + 3 }
{
    texts_tell_waves();
}

/// The text of what can be written is a certificate that says it.
pub fn printed_claims_are_a_certificate()
    ensures { (line : Line) (scripts : List Script) (claims : List Claims) →
        length claims ≡ length scripts → All (Fits line) scripts →
        All (CanBeWritten line) claims →
        IsCertificate line scripts claims (certificate_text line scripts claims) }
{
    the_text_of_a_wave_is_one_line();
}

/// What a certificate says can be written: waves of the horizon's length, and in each `no` one
/// number for each parameter.
pub fn certificates_can_be_written()
    ensures { (line : Line) (scripts : List Script) (claims : List Claims) (bytes : List ℕ) →
        IsCertificate line scripts claims bytes → All (CanBeWritten line) claims }
{}
