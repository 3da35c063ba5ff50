//! A script's part of the text of settled trees.

ghost use Rattle.std.specs.Prelude.{◌≡◌, ◌++◌, map, IfOk, OnOk};
ghost use Rattle.cert_settle.specs.Grammar.{HasOneEach, IsSettleResult};
ghost use Rattle.cert_settle.specs.{Reading.result_in, Text.part_text, Text.result_text};

use crate::claim::TreeClaim;
use crate::known::laws_below;
use crate::print::{push_fails, push_nodes, push_steps};
use cert_claims::text::{name_at, push_named};
use model_line::{Line, Memory, Script};
use std::alloc::Global;

/// A script's part of the text: its name, and for each terminal, in line order, its name and what
/// is said of it: a tree with a line for each node; or a timing that fails, a line for each step of
/// a delay and then its numbers.
pub fn settle_piece(
    alloc: Global,
    line: &Line,
    script: &Script,
    results: &[TreeClaim],
) -> Result<Vec<u8>, Memory>
    requires { HasOneEach line.now (map result_in results.now) }
    ensures { IfOk result (λ text.
        text.items ≡ part_text line.now script.now (map result_in results.now)) }
{
    let mut text = Vec::new(alloc);
    push_named(&mut text, b"script ", script.name)?;
    for k in 0..line.terminals.len() {
        push_named(&mut text, b"tree ", name_at(line, k))?;
        push_result(&mut text, line, &results[k])?;
    }
    Ok(text)
}

// Appends the lines of a result.
fn push_result(text: &mut Vec<u8>, line: &Line, claim: &TreeClaim) -> Result<(), Memory>
    requires { IsSettleResult line.now (result_in claim.now) }
    ensures { OnOk result (text.new.items
        ≡ text.old.items ++ result_text line.now (result_in claim.now)) }
{
    laws_below();
    match claim {
        TreeClaim::Tree(nodes) => push_nodes(text, line, nodes.as_slice()),
        TreeClaim::Fails { steps, numbers } => {
            push_steps(text, line, steps.as_slice())?;
            push_fails(text, numbers.as_slice())
        }
    }
}
