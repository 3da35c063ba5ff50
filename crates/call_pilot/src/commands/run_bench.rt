//! The command `bench`: a line and scripts from a number, certified, and the certificate checked.
ghost use Rattle.std.specs.Prelude.{◌≡◌, ◌≤◌, IfOk, OnOk, length};
ghost use Rattle.std.specs.List.{All};
ghost use Rattle.model_line.specs.Fits.{Fits};
ghost use Rattle.call_engine.specs.Calls.{AskedCertify, AskedVerdicts, NoneFell};
ghost use Rattle.call_answer.specs.Answers.{Says};
ghost use Rattle.call_pilot.specs.commands.Bench.{HasPart, IsOwnText, bench_answer, bench_asks};

use crate::commands::bench::bench_line;
use crate::commands::scripts::bench_scripts;
use crate::commands::text::bench_text;
use base_memory::{Memory, Stopped};
use call_answer::Said;
use call_engine::Engine;
use cert_claims::text::{CERT_END, CERT_HEAD, a_certificate_is_its_parts};
use cert_own::{
    a_certificate_grows_by_parts, answers_are_certified, cert_piece, what_is_certified_is_accepted,
};
use model_line::Script;
use net_compile::compile;
use net_gates::Compiled;
use std::alloc::Global;

/// Certifies the first scripts of the bench and checks the certificate. That it is rejected never
/// comes.
pub fn bench<G: Engine>(alloc: Global, number: u32, engine: &mut G) -> Result<Said, Memory>
    requires { number ≤ 64 }
    ensures asked { OnOk result (bench_asks number (G.calls engine.old) (G.calls engine.new)) }
    ensures said { IfOk result (Says (bench_answer number)) }
{
    what_is_certified_is_accepted();
    let line = bench_line(alloc)?;
    let scripts = bench_scripts(alloc, number)?;
    let net = compile(alloc, &line)?;
    let compiled = Compiled {
        line: &line,
        net: &net,
    };
    let cert = certified_text(alloc, &compiled, scripts.as_slice(), engine)?;
    match engine.check(alloc, &compiled, scripts.as_slice(), cert.as_slice()) {
        Ok(counts) => {
            let text = bench_text(alloc, number, counts)?;
            Ok(Said::good(text))
        }
        Err(Stopped::Fault(_)) => unreachable!(),
        Err(Stopped::Memory) => Err(Memory),
    }
}

// The certificate of the scripts, as the engine decides them.
fn certified_text<G: Engine>(
    alloc: Global,
    compiled: &Compiled<'_>,
    scripts: &[Script],
    engine: &mut G,
) -> Result<Vec<u8>, Memory>
    requires fit { All (Fits compiled.now.line.now) scripts.now }
    ensures asked { OnOk result (AskedVerdicts compiled.now.line.now (length scripts.now)
        (G.calls engine.old) (G.calls engine.new)) }
    ensures kept { NoneFell (G.calls engine.old) (G.calls engine.new) }
    ensures text { IfOk result (λ text. IsOwnText compiled.now.line.now scripts.now text.items) }
{
    a_certificate_grows_by_parts();
    a_certificate_is_its_parts();
    what_is_certified_is_accepted();
    let mut text = Vec::from_slice(alloc, CERT_HEAD)?;
    for script in scripts {
        push_certified(alloc, &mut text, compiled, script, engine)?;
    }
    text.extend_from_slice(CERT_END)?;
    Ok(text)
}

// Appends a script's part, as the engine decides it.
fn push_certified<G: Engine>(
    alloc: Global,
    text: &mut Vec<u8>,
    compiled: &Compiled<'_>,
    script: &Script,
    engine: &mut G,
) -> Result<(), Memory>
    requires fits { Fits compiled.now.line.now script.now }
    ensures asked { AskedCertify compiled.now.line.now (G.calls engine.old) (G.calls engine.new) }
    ensures kept { NoneFell (G.calls engine.old) (G.calls engine.new) }
    ensures text { OnOk result (HasPart compiled.now.line.now script.now text.old.items
        text.new.items) }
{
    answers_are_certified();
    let said = engine.certify(alloc, compiled, script)?;
    let piece = cert_piece(alloc, compiled.line, script, &said)?;
    text.extend_from_slice(piece.as_slice())?;
    Ok(())
}
