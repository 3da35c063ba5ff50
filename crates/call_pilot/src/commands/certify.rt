//! The command `certify`: the verdict of each obligation, for every choice of delays.
ghost use Rattle.std.specs.Prelude.{◌≡◌, OnOk, length, map};
ghost use Rattle.std.specs.List.{All, list_any};
ghost use Rattle.model_line.specs.Fits.{Fits};
ghost use Rattle.call_engine.specs.Calls.{AskedCertify, AskedVerdicts, NoneFell};
ghost use Rattle.cert_own.specs.Piece.{written_as};
ghost use Rattle.cert_claims.specs.check.Counts.{is_no as no_verdict};
ghost use Rattle.cert_claims.specs.check.Counts.{is_undecided as undecided_verdict};
ghost use Rattle.call_pilot.specs.commands.Certify.{certify_answer, certify_asks};
ghost use Rattle.call_pilot.specs.commands.PartWrites.{WritesPart, WritesParts};
ghost use Rattle.call_answer.specs.{Answers.WritesAnswer, Sinks.sink_view, Study.IsStudy};
ghost use Rattle.call_pilot.specs.commands.Verdicts.{IsFoundOf};

use crate::commands::found::{Found, NOTHING};
use crate::commands::laws::a_certificate_is_made_of_parts;
use base_memory::Stopped;
use base_text::store::{PutFailed, Sink};
use call_answer::{Done, Study, put_text};
use call_engine::Engine;
use cert_claims::text::{CERT_END, CERT_HEAD};
use cert_own::{answers_are_certified, cert_piece};
use judge_verdict::verdict::Verdict;
use model_line::Script;
use net_gates::Compiled;
use std::alloc::Global;

/// Writes the certificate: its head, the part of each script once it is decided, and its end.
pub fn certify<G: Engine, O: Sink>(
    alloc: Global,
    study: &Study,
    engine: &mut G,
    out: &mut O,
) -> Result<Done, Stopped<PutFailed>>
    requires { IsStudy study.now }
    ensures asked { OnOk result (certify_asks study.now.line study.now.scripts.items
        (G.calls engine.old) (G.calls engine.new)) }
    ensures kept { NoneFell (G.calls engine.old) (G.calls engine.new) }
    ensures writes { WritesAnswer (certify_answer study.now.line study.now.scripts.items)
        (sink_view O.written O.faults out.old) (sink_view O.written O.faults out.new) result }
{
    a_certificate_is_made_of_parts();
    put_text(out, CERT_HEAD)?;
    let scripts = study.scripts.as_slice();
    let compiled = Compiled {
        line: &study.line,
        net: &study.net,
    };
    let found = write_parts(alloc, &compiled, scripts, engine, out)?;
    put_text(out, CERT_END)?;
    Ok(found.status())
}

// Writes the part of each script in order.
fn write_parts<G: Engine, O: Sink>(
    alloc: Global,
    compiled: &Compiled<'_>,
    scripts: &[Script],
    engine: &mut G,
    out: &mut O,
) -> Result<Found, Stopped<PutFailed>>
    requires fit { All (Fits compiled.now.line.now) scripts.now }
    ensures asked { OnOk result (AskedVerdicts compiled.now.line.now (length scripts.now)
        (G.calls engine.old) (G.calls engine.new)) }
    ensures kept { NoneFell (G.calls engine.old) (G.calls engine.new) }
    ensures writes { WritesParts compiled.now.line.now scripts.now
        (sink_view O.written O.faults out.old) (sink_view O.written O.faults out.new) result }
{
    a_certificate_is_made_of_parts();
    let mut found = NOTHING;
    for script in scripts {
        let more = write_part(alloc, compiled, script, engine, out)?;
        found = found.and(more);
    }
    Ok(found)
}

// Decides the obligations of a script and writes its part.
fn write_part<G: Engine, O: Sink>(
    alloc: Global,
    compiled: &Compiled<'_>,
    script: &Script,
    engine: &mut G,
    out: &mut O,
) -> Result<Found, Stopped<PutFailed>>
    requires fits { Fits compiled.now.line.now script.now }
    ensures asked { OnOk result (AskedCertify compiled.now.line.now
        (G.calls engine.old) (G.calls engine.new)) }
    ensures kept { NoneFell (G.calls engine.old) (G.calls engine.new) }
    ensures writes { WritesPart compiled.now.line.now script.now
        (sink_view O.written O.faults out.old) (sink_view O.written O.faults out.new) result }
{
    a_certificate_is_made_of_parts();
    answers_are_certified();
    let said = engine.certify(alloc, compiled, script)?;
    let piece = cert_piece(alloc, compiled.line, script, &said)?;
    put_text(out, piece.as_slice())?;
    Ok(found_of(said.verdicts.as_slice()))
}

// What is found of these verdicts.
fn found_of(verdicts: &[Verdict]) -> Found
    ensures { IsFoundOf (map written_as verdicts.now) result }
{
    Found {
        some_no: some_no(verdicts),
        some_open: some_undecided(verdicts),
    }
}

fn some_no(verdicts: &[Verdict]) -> bool
    ensures { result ≡ list_any (λ verdict. no_verdict (written_as verdict)) verdicts.now }
{
    verdicts.iter().any(|verdict| is_no(verdict))
}

fn some_undecided(verdicts: &[Verdict]) -> bool
    ensures { result ≡ list_any (λ verdict. undecided_verdict (written_as verdict)) verdicts.now }
{
    verdicts.iter().any(|verdict| is_undecided(verdict))
}

fn is_no(verdict: &Verdict) -> bool
    ensures { result ≡ no_verdict (written_as verdict.now) }
{
    match verdict {
        Verdict::No(_) => true,
        Verdict::Yes | Verdict::Undecided => false,
    }
}

fn is_undecided(verdict: &Verdict) -> bool
    ensures { result ≡ undecided_verdict (written_as verdict.now) }
{
    match verdict {
        Verdict::Undecided => true,
        Verdict::Yes | Verdict::No(_) => false,
    }
}
