//! The lines of settled trees, read one after another.

ghost use Rattle.std.specs.Prelude.{◌++◌, [], ◌∷◌, List, map, MatchResult};
ghost use Rattle.model_logic.specs.Choice.{declared_box};
ghost use Rattle.base_memory.specs.Gives.{OfFault};
ghost use Rattle.base_text.specs.lines.Grammar.{Reads, IsFault};
ghost use Rattle.cert_settle.specs.Grammar.{Place, SettleResult, result_over};
ghost use Rattle.cert_settle.specs.Grammar.{result_said, terminal_parts, script_parts};
ghost use Rattle.cert_settle.specs.Grammar.{grammar_of};
ghost use Rattle.cert_settle.specs.Grammar.{IsSettleResult, IsSettleText, LeavesGrammar};
ghost use Rattle.cert_settle.specs.Reading.{result_in, results_in};

use crate::branch_line::{Limits, node_in};
use crate::claim::TreeClaim;
use crate::read_timing::read_timing;
use crate::read_tree::read_below;
use base_memory::Stopped;
use base_text::lines::{LineCursor, PartReader, TextFault, read_each, read_text};
use judge_cases::declared_view;
use model_line::{Line, Script, Terminal};
use std::alloc::Global;

// At most so many parts and pairs of cases stand above one another, and so many are in a tree.
const WHOLE: Limits = Limits {
    depth: 1024,
    room: 2047,
};

// Reads the result of an obligation.
fn read_result(
    alloc: Global,
    line: &Line,
    lines: &mut LineCursor<'_>,
) -> Result<TreeClaim, Stopped<TextFault>>
    ensures { (later : List Place) → MatchResult result
        (λ claim. IsSettleResult line.now (result_in claim)
        × Reads (grammar_of line.now) (result_over (declared_box line.now) ∷ [])
        (result_said (result_in claim)) later
        lines.old.rest.now lines.old.number lines.new.rest.now lines.new.number)
        (λ why. IsFault (grammar_of line.now) (result_over (declared_box line.now) ∷ later)
        lines.old.rest.now lines.old.number why) }
{
    let view = declared_view(alloc, line)?;
    let number = lines.number;
    let bytes = lines.take_line()?;
    let Some(root) = node_in(line, &view, WHOLE, bytes) else {
        return read_timing(alloc, line, bytes, number, lines);
    };
    let mut nodes = Vec::new(alloc);
    read_below(alloc, line, &view, WHOLE, root, lines, &mut nodes)?;
    Ok(TreeClaim::Tree(nodes))
}

// Reads the lines of a terminal: its own, and those of its result.
#[derive(Clone, Copy)]
struct TreeReader<'a> {
    line: &'a Line,
}

impl<'a> PartReader for TreeReader<'a> {
    type Item = Terminal;

    type Part = TreeClaim;

    ghost Meaning = { SettleResult };

    ghost meaning = { result_in };

    ghost parts = { λ reader. terminal_parts reader.line.now };

    fn read(
        &self,
        alloc: Global,
        terminal: &Terminal,
        lines: &mut LineCursor<'_>,
    ) -> Result<TreeClaim, Stopped<TextFault>> {
        lines.take_named(b"tree ", terminal.name.bytes())?;
        read_result(alloc, self.line, lines)
    }
}

// Reads the part of a script: its own line, and those of the terminals in line order.
#[derive(Clone, Copy)]
struct ScriptReader<'a> {
    line: &'a Line,
}

impl<'a> PartReader for ScriptReader<'a> {
    type Item = Script;

    type Part = Vec<TreeClaim>;

    ghost Meaning = { List SettleResult };

    ghost meaning = { results_in };

    ghost parts = { λ reader. script_parts reader.line.now };

    fn read(
        &self,
        alloc: Global,
        script: &Script,
        lines: &mut LineCursor<'_>,
    ) -> Result<Vec<TreeClaim>, Stopped<TextFault>> {
        lines.take_named(b"script ", script.name.bytes())?;
        let line = self.line;
        read_each(
            alloc,
            &TreeReader { line },
            line.terminals.as_slice(),
            lines,
        )
    }
}

/// What a text says of the scripts: for each script in order, and each terminal in line order, a
/// tree that can be made in the declared box, or the steps and numbers of a timing. Or the first
/// line that leaves the grammar.
pub fn read_settle_text(
    alloc: Global,
    line: &Line,
    scripts: &[Script],
    bytes: &[u8],
) -> Result<Vec<Vec<TreeClaim>>, Stopped<TextFault>>
    ensures { MatchResult result
        (λ parts. IsSettleText line.now scripts.now (map results_in parts.items) bytes.now)
        (OfFault (λ fault. LeavesGrammar line.now scripts.now bytes.now fault.line)) }
{
    read_text(
        alloc,
        &ScriptReader { line },
        b"study-trees 2",
        scripts,
        b"end",
        bytes,
    )
}
