//! A script's part of the text of split trees.

ghost use Rattle.std.specs.Prelude.{◌≡◌, ◌++◌, map, IfOk, OnOk};
ghost use Rattle.cert_split.specs.text.Text.{part_text, result_text};
ghost use Rattle.cert_split.specs.text.Piece.{ArePrintable, IsPrintable, written_as};

use crate::text::print::{push_fails, push_nodes};
use cert_claims::text::{name_at, numbers_of, push_named};
use judge_split::Outcome;
use model_line::{Line, Memory, Script};
use std::alloc::Global;

/// A script's part of the text: its name, and for each terminal, in line order, its name and what
/// was found there, a tree with a line for each node or the numbers of a timing that fails.
pub fn split_piece(
    alloc: Global,
    line: &Line,
    script: &Script,
    searches: &[Outcome],
) -> Result<Vec<u8>, Memory>
    requires { ArePrintable line.now searches.now }
    ensures { IfOk result (λ text.
        text.items ≡ part_text line.now script.now (map written_as searches.now)) }
{
    let mut text = Vec::new(alloc);
    push_named(&mut text, b"script ", script.name)?;
    for k in 0..line.terminals.len() {
        push_named(&mut text, b"tree ", name_at(line, k))?;
        push_outcome(alloc, &mut text, line, &searches[k])?;
    }
    Ok(text)
}

// Appends the lines of what was found.
fn push_outcome(
    alloc: Global,
    text: &mut Vec<u8>,
    line: &Line,
    outcome: &Outcome,
) -> Result<(), Memory>
    requires { IsPrintable line.now outcome.now }
    ensures { OnOk result (text.new.items
        ≡ text.old.items ++ result_text line.now (written_as outcome.now)) }
{
    match outcome {
        Outcome::Tree(nodes) => push_nodes(text, line, nodes.as_slice()),
        Outcome::Fails(timing) => {
            let numbers = numbers_of(alloc, timing.values())?;
            push_fails(text, numbers.as_slice())
        }
    }
}
