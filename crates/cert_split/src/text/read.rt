//! The lines of split trees, read one after another.

ghost use Rattle.std.specs.Prelude.{◌++◌, [], ◌∷◌, List, map, MatchResult};
ghost use Rattle.model_logic.specs.Choice.{declared_box};
ghost use Rattle.base_memory.specs.Gives.{OfFault};
ghost use Rattle.base_text.specs.lines.Grammar.{Reads, IsFault};
ghost use Rattle.cert_split.specs.text.Grammar.{Place, SplitResult, result_over};
ghost use Rattle.cert_split.specs.text.Grammar.{result_said, terminal_parts, script_parts};
ghost use Rattle.cert_split.specs.text.Grammar.{grammar_of};
ghost use Rattle.cert_split.specs.text.Grammar.{IsSplitResult, IsSplitText, LeavesGrammar};
ghost use Rattle.cert_split.specs.text.Reading.{result_in, results_in};

use crate::text::claim::SplitClaim;
use crate::text::known::laws_below;
use crate::text::node_line::node_in;
use crate::text::read_tree::read_below;
use base_memory::Stopped;
use base_text::lines::{LineCursor, PartReader, TextFault, read_each, read_text};
use cert_claims::text::read_no;
use model_line::{Line, Script, Terminal};
use std::alloc::Global;

// At most so many splits stand above one another.
const DEEPEST: u32 = 8;

// Reads the result of an obligation.
fn read_result(
    alloc: Global,
    line: &Line,
    lines: &mut LineCursor<'_>,
) -> Result<SplitClaim, Stopped<TextFault>>
    ensures { (later : List Place) → MatchResult result
        (λ claim. IsSplitResult line.now (result_in claim)
        × Reads (grammar_of line.now) (result_over (declared_box line.now) ∷ []) (result_said (result_in claim))
        later lines.old.rest.now lines.old.number lines.new.rest.now lines.new.number)
        (λ why. IsFault (grammar_of line.now) (result_over (declared_box line.now) ∷ later)
        lines.old.rest.now lines.old.number why) }
{
    laws_below();
    let number = lines.number;
    let bytes = lines.take_line()?;
    if let Some(numbers) = read_no(alloc, line, bytes)? {
        return Ok(SplitClaim::Fails(numbers));
    }
    let Some(root) = node_in(line, line, DEEPEST, bytes) else {
        return Err(Stopped::Fault(TextFault { line: number }));
    };
    let mut nodes = Vec::new(alloc);
    read_below(alloc, line, line, DEEPEST, root, lines, &mut nodes)?;
    Ok(SplitClaim::Tree(nodes))
}

// Reads the lines of a terminal: its own, and those of its result.
#[derive(Clone, Copy)]
struct TreeReader<'a> {
    line: &'a Line,
}

impl<'a> PartReader for TreeReader<'a> {
    type Item = Terminal;

    type Part = SplitClaim;

    ghost Meaning = { SplitResult };

    ghost meaning = { result_in };

    ghost parts = { λ reader. terminal_parts reader.line.now };

    fn read(
        &self,
        alloc: Global,
        terminal: &Terminal,
        lines: &mut LineCursor<'_>,
    ) -> Result<SplitClaim, Stopped<TextFault>> {
        lines.take_named(b"tree ", terminal.name.bytes())?;
        read_result(alloc, self.line, lines)
    }
}

// Reads the part of a script: its own line, and those of the terminals in line order.
#[derive(Clone, Copy)]
struct ScriptReader<'a> {
    line: &'a Line,
}

impl<'a> PartReader for ScriptReader<'a> {
    type Item = Script;

    type Part = Vec<SplitClaim>;

    ghost Meaning = { List SplitResult };

    ghost meaning = { results_in };

    ghost parts = { λ reader. script_parts reader.line.now };

    fn read(
        &self,
        alloc: Global,
        script: &Script,
        lines: &mut LineCursor<'_>,
    ) -> Result<Vec<SplitClaim>, Stopped<TextFault>> {
        lines.take_named(b"script ", script.name.bytes())?;
        let line = self.line;
        read_each(
            alloc,
            &TreeReader { line },
            line.terminals.as_slice(),
            lines,
        )
    }
}

/// What a text says of the scripts: for each script in order, and each terminal in line order, a
/// tree that splits the declared box or the numbers of a `no`. Or the first line that leaves the
/// grammar.
pub fn read_split_text(
    alloc: Global,
    line: &Line,
    scripts: &[Script],
    bytes: &[u8],
) -> Result<Vec<Vec<SplitClaim>>, Stopped<TextFault>>
    ensures { MatchResult result
        (λ parts. IsSplitText line.now scripts.now (map results_in parts.items) bytes.now)
        (OfFault (λ fault. LeavesGrammar line.now scripts.now bytes.now fault.line)) }
{
    read_text(
        alloc,
        &ScriptReader { line },
        b"pilot-split 1",
        scripts,
        b"end",
        bytes,
    )
}
