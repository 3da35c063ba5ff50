//! Whether settled trees are accepted.

ghost use Rattle.std.specs.Prelude.{◌≡◌, IfOk};
ghost use Rattle.std.specs.List.{concat};
ghost use Rattle.call_answer.specs.Answers.{Says};
ghost use Rattle.call_tables.specs.Recheck.{recheck_answer, rejected_pieces, refused_pieces};
ghost use Rattle.call_tables.specs.Whole.{IsWhole};

use base_memory::{Memory, Stopped};
use call_answer::{Said, Study, text_of};
use call_engine::checked::{
    accepted_text, place, rejected_line, rejected_outside, rejected_passes,
};
use cert_settle::{SettleFault, check_settle};
use itoa::Buffer;
use net_gates::Compiled;
use std::alloc::Global;

/// The counts of what the obligations come to where the settled trees are accepted, and their first
/// fault where they are rejected: then status 3.
pub fn recheck_settled(alloc: Global, study: &Study, trees: &[u8]) -> Result<Said, Memory>
    requires { IsWhole study.now }
    ensures { IfOk result
        (Says (recheck_answer study.now.line study.now.scripts.items trees.now)) }
{
    let compiled = Compiled {
        line: &study.line,
        net: &study.net,
    };
    match check_settle(alloc, &compiled, study.scripts.as_slice(), trees) {
        Ok(counts) => Ok(Said::good(accepted_text(alloc, counts)?)),
        Err(Stopped::Memory) => Err(Memory),
        Err(Stopped::Fault(fault)) => Ok(Said::rejected(rejected_text(
            alloc, study, trees, fault,
        )?)),
    }
}

// The first line that leaves the grammar, with a hint where an earlier version wrote the text.
fn refused_text(alloc: Global, trees: &[u8], number: usize) -> Result<Vec<u8>, Memory>
    ensures { IfOk result (λ text. text.items ≡ concat (refused_pieces trees.now number)) }
{
    if !trees.starts_with(b"study-trees 1\n") {
        return rejected_line(alloc, number);
    }
    let mut digits = Buffer::new();
    let number = digits.format(number).as_bytes();
    text_of(
        alloc,
        &[
            b"rejected Line ",
            number,
            b"\n",
            b"an earlier version wrote these trees: make them again with `study settle --trees`\n",
        ],
    )
}

fn rejected_text(
    alloc: Global,
    study: &Study,
    trees: &[u8],
    fault: SettleFault,
) -> Result<Vec<u8>, Memory>
    ensures { IfOk result (λ text. text.items
        ≡ concat (rejected_pieces study.now.line study.now.scripts.items trees.now fault)) }
{
    match fault {
        SettleFault::Line(number) => refused_text(alloc, trees, number),
        SettleFault::NotShown {
            script,
            terminal,
            leaf,
        } => {
            let mut digits = Buffer::new();
            let place = place(alloc, study, script, terminal)?;
            let leaf = digits.format(leaf).as_bytes();
            text_of(
                alloc,
                &[b"rejected NotShown", place.as_slice(), b" ", leaf, b"\n"],
            )
        }
        SettleFault::Outside {
            script,
            terminal,
            param,
            value,
        } => rejected_outside(alloc, study, script, terminal, param, value),
        SettleFault::Passes {
            script,
            terminal,
            tick,
        } => rejected_passes(alloc, study, script, terminal, tick),
    }
}
