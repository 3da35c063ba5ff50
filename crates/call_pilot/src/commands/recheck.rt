//! The command `recheck`: whether split trees are accepted.
ghost use Rattle.std.specs.Prelude.{◌≡◌, IfOk};
ghost use Rattle.std.specs.List.{concat};
ghost use Rattle.call_answer.specs.Answers.{Says};
ghost use Rattle.call_pilot.specs.{commands.Recheck.recheck_answer, commands.Recheck.rejected_pieces};
ghost use Rattle.call_answer.specs.Study.{IsStudy};

use base_memory::{Memory, Stopped};
use call_answer::{Said, Study, text_of};
use call_engine::checked::{
    accepted_text, place, rejected_line, rejected_outside, rejected_passes,
};
use cert_split::check::{SplitFault, check_split};
use itoa::Buffer;
use std::alloc::Global;

/// The counts of what the obligations come to where the trees are accepted, and their first fault
/// where they are rejected.
pub fn recheck(alloc: Global, study: &Study, trees: &[u8]) -> Result<Said, Memory>
    requires { IsStudy study.now }
    ensures { IfOk result
        (Says (recheck_answer study.now.line study.now.scripts.items trees.now)) }
{
    match check_split(alloc, &study.compiled(), study.scripts.as_slice(), trees) {
        Ok(counts) => Ok(Said::good(accepted_text(alloc, counts)?)),
        Err(Stopped::Memory) => Err(Memory),
        Err(Stopped::Fault(fault)) => Ok(Said::rejected(rejected_text(alloc, study, fault)?)),
    }
}

fn rejected_text(alloc: Global, study: &Study, fault: SplitFault) -> Result<Vec<u8>, Memory>
    ensures { IfOk result (λ text. text.items
        ≡ concat (rejected_pieces study.now.line study.now.scripts.items fault)) }
{
    match fault {
        SplitFault::Line(number) => rejected_line(alloc, number as usize),
        SplitFault::NotHeld {
            script,
            terminal,
            leaf,
        } => {
            let mut digits = Buffer::new();
            let place = place(alloc, study, script, terminal)?;
            let leaf = digits.format(leaf).as_bytes();
            text_of(
                alloc,
                &[b"rejected NotHeld", place.as_slice(), b" ", leaf, b"\n"],
            )
        }
        SplitFault::Outside {
            script,
            terminal,
            param,
            value,
        } => rejected_outside(alloc, study, script, terminal, param, value),
        SplitFault::Passes {
            script,
            terminal,
            tick,
        } => rejected_passes(alloc, study, script, terminal, tick),
    }
}
