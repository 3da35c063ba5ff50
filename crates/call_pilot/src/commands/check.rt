//! The command `check`: whether a certificate is accepted.
ghost use Rattle.std.specs.Prelude.{◌≡◌, IfOk, OnOk};
ghost use Rattle.std.specs.List.{concat};
ghost use Rattle.call_answer.specs.Answers.{Says};
ghost use Rattle.call_pilot.specs.{commands.Check.check_answer, commands.Check.check_asks, commands.Check.rejected_pieces};
ghost use Rattle.call_answer.specs.Study.{IsStudy};

use base_memory::{Memory, Stopped};
use call_answer::{Said, Study, text_of};
use call_engine::Engine;
use call_engine::checked::{
    accepted_text, place, rejected_line, rejected_outside, rejected_passes,
};
use cert_claims::check::CheckFault;
use itoa::Buffer;
use run_waves::waves::tern_word;
use std::alloc::Global;

/// The counts of the certificate's verdicts where it is accepted, and its first fault where it is
/// rejected.
pub fn check<G: Engine>(
    alloc: Global,
    study: &Study,
    cert: &[u8],
    engine: &mut G,
) -> Result<Said, Memory>
    requires { IsStudy study.now }
    ensures asked { OnOk result (check_asks study.now.line
        (G.calls engine.old) (G.calls engine.new)) }
    ensures said { IfOk result
        (Says (check_answer study.now.line study.now.scripts.items cert.now)) }
{
    match engine.check(alloc, &study.compiled(), study.scripts.as_slice(), cert) {
        Ok(counts) => Ok(Said::good(accepted_text(alloc, counts)?)),
        Err(Stopped::Memory) => Err(Memory),
        Err(Stopped::Fault(fault)) => Ok(Said::rejected(rejected_text(alloc, study, fault)?)),
    }
}

fn rejected_text(alloc: Global, study: &Study, fault: CheckFault) -> Result<Vec<u8>, Memory>
    ensures { IfOk result (λ text. text.items
        ≡ concat (rejected_pieces study.now.line study.now.scripts.items fault)) }
{
    match fault {
        CheckFault::Line(number) => rejected_line(alloc, number as usize),
        CheckFault::NotCovered {
            script,
            terminal,
            tick,
            claimed,
            derived,
        } => {
            let mut digits = Buffer::new();
            let place = place(alloc, study, script, terminal)?;
            let tick = digits.format(tick).as_bytes();
            text_of(
                alloc,
                &[
                    b"rejected NotCovered",
                    place.as_slice(),
                    b" ",
                    tick,
                    b" claimed ",
                    tern_word(claimed),
                    b" derived ",
                    tern_word(derived),
                    b"\n",
                ],
            )
        }
        CheckFault::NotHeld { script, terminal } => {
            let place = place(alloc, study, script, terminal)?;
            text_of(alloc, &[b"rejected NotHeld", place.as_slice(), b"\n"])
        }
        CheckFault::Outside {
            script,
            terminal,
            param,
            value,
        } => rejected_outside(alloc, study, script, terminal, param, value),
        CheckFault::Passes {
            script,
            terminal,
            tick,
        } => rejected_passes(alloc, study, script, terminal, tick),
    }
}
