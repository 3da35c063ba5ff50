//! A script's part of a certificate.

ghost use Rattle.std.specs.Prelude.{◌≡◌, map, IfOk};
ghost use Rattle.cert_claims.specs.text.Grammar.{verdict_in};
ghost use Rattle.cert_own.specs.Piece.{piece_text, written_as};
ghost use Rattle.judge_verdict.specs.verdict.Printable.{IsPrintable};

use cert_claims::text::{Claim, numbers_of, push_part};
use judge_verdict::verdict::{ScriptVerdict, Verdict};
use model_line::{Line, Memory, Script};
use std::alloc::Global;

/// A script's part of a certificate: its name, the key wave of each terminal, and the verdict of
/// each, a line each.
pub fn cert_piece(
    alloc: Global,
    line: &Line,
    script: &Script,
    verdict: &ScriptVerdict,
) -> Result<Vec<u8>, Memory>
    requires { IsPrintable line.now verdict.now }
    ensures { IfOk result (λ text. text.items ≡ piece_text line.now script.now verdict.now) }
{
    let claims = claims_of(alloc, verdict.verdicts.as_slice())?;
    let mut text = Vec::new(alloc);
    push_part(
        alloc,
        &mut text,
        line,
        script,
        verdict.keys.as_slice(),
        claims.as_slice(),
    )?;
    Ok(text)
}

// What the verdicts claim.
fn claims_of(alloc: Global, verdicts: &[Verdict]) -> Result<Vec<Claim>, Memory>
    ensures { IfOk result (λ claims.
        map verdict_in claims.items ≡ map written_as verdicts.now) }
{
    let mut claims = Vec::new(alloc);
    for i in 0..verdicts.len() {
        let claim = claim_of(alloc, &verdicts[i])?;
        claims.push(claim)?;
    }
    Ok(claims)
}

// What a verdict claims: `no` with the numbers of its timing.
fn claim_of(alloc: Global, verdict: &Verdict) -> Result<Claim, Memory>
    ensures { IfOk result (λ claim. verdict_in claim ≡ written_as verdict.now) }
{
    match verdict {
        Verdict::Yes => Ok(Claim::Yes),
        Verdict::No(timing) => {
            let numbers = numbers_of(alloc, timing.values())?;
            Ok(Claim::No(numbers))
        }
        Verdict::Undecided => Ok(Claim::Undecided),
    }
}
