//! The check of a certificate.

ghost use Rattle.std.specs.Prelude.{◌≡◌, ◌≤◌, ℕ, List, length, map, IfOk, MatchResult};
ghost use Rattle.std.specs.List.{All};
ghost use Rattle.base_memory.specs.Gives.{OfFault};
ghost use Rattle.model_line.specs.Fits.{Fits};
ghost use Rattle.cert_claims.specs.text.Grammar.{claims_in, IsCertificate, LeavesGrammar};
ghost use Rattle.cert_claims.specs.text.Text.{CanBeWritten};
ghost use Rattle.cert_claims.specs.check.Check.{IsAccepted, IsCheckFault, IsSoundText};
ghost use Rattle.cert_claims.specs.{check.Scripts.EachBelow, check.Verdicts.AreSoundClaims};

use crate::check::counts::{Counts, counts_of};
use crate::check::fault::{CheckFault, in_script};
use crate::check::script_check::check_claims;
use crate::text::{
    ScriptClaims, a_text_has_one_meaning, a_text_leaves_at_one_line, certificates_can_be_written,
    read_certificate,
};
use base_memory::Stopped;
use base_text::lines::TextFault;
use model_line::{Line, Script};
use net_gates::Compiled;
use std::alloc::Global;

/// Checks a certificate of the scripts, and counts its verdicts. The error is the first fault: the
/// first line that leaves the grammar; else, script by script, the first key that does not cover and
/// then the first verdict that does not stand.
pub fn check(
    alloc: Global,
    compiled: &Compiled<'_>,
    scripts: &[Script],
    cert: &[u8],
) -> Result<Counts, Stopped<CheckFault>>
    requires fits { All (Fits compiled.now.line.now) scripts.now }
    requires few { length scripts.now ≤ 64 }
    ensures exact { MatchResult result
        (λ counts. IsAccepted compiled.now.line.now scripts.now cert.now counts)
        (OfFault (IsCheckFault compiled.now.line.now scripts.now cert.now)) }
    // Whatever the claims are: each history of each choice inside meets what has a `yes`.
    ensures yes { IfOk result (λ _. IsSoundText compiled.now.line.now scripts.now cert.now) }
{
    certificates_can_be_written();
    a_text_has_one_meaning();
    match read_certificate(alloc, compiled.line, scripts, cert) {
        Ok(claims) => check_scripts(alloc, compiled, scripts, claims.as_slice()),
        Err(Stopped::Fault(fault)) => {
            Err(Stopped::Fault(of_text(compiled.line, scripts, cert, fault)))
        }
        Err(Stopped::Memory) => Err(Stopped::Memory),
    }
}

// The fault of the text. A certificate of these scripts has few lines, so the number fits.
fn of_text(line: &Line, scripts: &[Script], cert: &[u8], fault: TextFault) -> CheckFault
    requires few { length scripts.now ≤ 64 }
    requires leaves { LeavesGrammar line.now scripts.now cert.now fault.line }
    ensures { IsCheckFault line.now scripts.now cert.now result }
{
    a_text_leaves_at_one_line();
    CheckFault::Line(fault.line as u32)
}

// Checks what is said of each script, in order.
fn check_scripts(
    alloc: Global,
    compiled: &Compiled<'_>,
    scripts: &[Script],
    claims: &[ScriptClaims],
) -> Result<Counts, Stopped<CheckFault>>
    requires fits { All (Fits compiled.now.line.now) scripts.now }
    requires few { length scripts.now ≤ 64 }
    requires many { length claims.now ≡ length scripts.now }
    requires written { All (CanBeWritten compiled.now.line.now) (map claims_in claims.now) }
    ensures exact { (bytes : List ℕ) →
        IsCertificate compiled.now.line.now scripts.now (map claims_in claims.now) bytes →
        MatchResult result
        (λ counts. IsAccepted compiled.now.line.now scripts.now bytes counts)
        (OfFault (IsCheckFault compiled.now.line.now scripts.now bytes)) }
    ensures yes { IfOk result (λ _. EachBelow (AreSoundClaims compiled.now.line.now) scripts.now
        (map claims_in claims.now) (length scripts.now)) }
{
    for i in 0..scripts.len() {
        match check_claims(alloc, compiled, &scripts[i], &claims[i]) {
            Ok(()) => {}
            Err(Stopped::Fault(fault)) => return Err(Stopped::Fault(in_script(i as u32, fault))),
            Err(Stopped::Memory) => return Err(Stopped::Memory),
        }
    }
    Ok(counts_of(claims))
}
