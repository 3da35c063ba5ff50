//! The lines of a certificate, read one after another.

ghost use Rattle.std.specs.Prelude.{◌≡◌, ◌<◌, ◌++◌, [], List, map, get_or, MatchResult, refl};
ghost use Rattle.model_line.specs.Parameters.{terminal_count};
ghost use Rattle.base_memory.specs.Gives.{OfFault};
ghost use Rattle.base_text.specs.lines.Grammar.{Reads, IsFault};
ghost use Rattle.cert_claims.specs.text.Grammar.{Place, key_of, verdict_of, says_key, says_verdict};
ghost use Rattle.cert_claims.specs.text.Grammar.{Claims, HasOneEach, verdict_in, claims_in, grammar_of};
ghost use Rattle.cert_claims.specs.text.Grammar.{terminal_names, claim_places, claims_said};
ghost use Rattle.cert_claims.specs.text.Grammar.{script_parts, IsCertificate, LeavesGrammar};

use crate::text::claim::{Claim, ScriptClaims};
use crate::text::words::read_words;
use base_memory::Stopped;
use base_text::lines::{
    LineCursor, LineReader, PartReader, TextFault, after_name, read_lines, read_text,
};
use model_line::{Line, Memory, Name, Script, Terminal};
use run_waves::waves::{Runs, read_runs};
use std::alloc::Global;

/// The name of a terminal.
pub fn name_at(line: &Line, k: usize) -> Name
    requires { k < terminal_count line.now }
    ensures { result ≡ get_or (terminal_names line.now) k [] }
{
    line.terminals[k].name
}

// Reads the key line of a terminal.
#[derive(Clone, Copy)]
struct KeyReader<'a> {
    line: &'a Line,
}

impl<'a> LineReader for KeyReader<'a> {
    type Item = Terminal;

    type Part = Runs;

    ghost grammar = { λ reader. grammar_of reader.line.now };

    ghost place = { λ _ terminal. key_of terminal.name };

    ghost says = { λ _ wave. says_key wave };

    fn read_line(
        &self,
        alloc: Global,
        terminal: &Terminal,
        bytes: &[u8],
    ) -> Result<Option<Runs>, Memory> {
        match after_name(bytes, b"key", terminal.name.bytes()) {
            Some(text) => read_runs(alloc, text, self.line.horizon),
            None => Ok(None),
        }
    }

    ghost opens_none = { λ _ _ _. refl };
}

// Reads the verdict line of a terminal.
#[derive(Clone, Copy)]
struct VerdictReader<'a> {
    line: &'a Line,
}

impl<'a> LineReader for VerdictReader<'a> {
    type Item = Terminal;

    type Part = Claim;

    ghost grammar = { λ reader. grammar_of reader.line.now };

    ghost place = { λ _ terminal. verdict_of terminal.name };

    ghost says = { λ _ claim. says_verdict (verdict_in claim) };

    fn read_line(
        &self,
        alloc: Global,
        terminal: &Terminal,
        bytes: &[u8],
    ) -> Result<Option<Claim>, Memory> {
        match after_name(bytes, b"verdict", terminal.name.bytes()) {
            Some(words) => read_words(alloc, self.line, words),
            None => Ok(None),
        }
    }

    ghost opens_none = { λ _ _ _. refl };
}

// Reads the key lines and then the verdict lines, terminals in line order.
fn read_claims(
    alloc: Global,
    line: &Line,
    lines: &mut LineCursor<'_>,
) -> Result<ScriptClaims, Stopped<TextFault>>
    ensures { (later : List Place) → MatchResult result
        (λ claims. HasOneEach line.now (claims_in claims)
        × Reads (grammar_of line.now) (claim_places line.now) (claims_said (claims_in claims)) later
        lines.old.rest.now lines.old.number lines.new.rest.now lines.new.number)
        (λ why. IsFault (grammar_of line.now) (claim_places line.now ++ later)
        lines.old.rest.now lines.old.number why) }
{
    let terminals = line.terminals.as_slice();
    let keys = read_lines(alloc, &KeyReader { line }, terminals, lines)?;
    let verdicts = read_lines(alloc, &VerdictReader { line }, terminals, lines)?;
    Ok(ScriptClaims { keys, verdicts })
}

// Reads the part of a script: its own line, and those of its claims.
#[derive(Clone, Copy)]
struct ScriptReader<'a> {
    line: &'a Line,
}

impl<'a> PartReader for ScriptReader<'a> {
    type Item = Script;

    type Part = ScriptClaims;

    ghost Meaning = { Claims };

    ghost meaning = { claims_in };

    ghost parts = { λ reader. script_parts reader.line.now };

    fn read(
        &self,
        alloc: Global,
        script: &Script,
        lines: &mut LineCursor<'_>,
    ) -> Result<ScriptClaims, Stopped<TextFault>> {
        lines.take_named(b"script ", script.name.bytes())?;
        read_claims(alloc, self.line, lines)
    }
}

/// What a certificate of the scripts says, one for each script in order, or the first line that
/// leaves its grammar.
pub fn read_certificate(
    alloc: Global,
    line: &Line,
    scripts: &[Script],
    bytes: &[u8],
) -> Result<Vec<ScriptClaims>, Stopped<TextFault>>
    ensures { MatchResult result
        (λ claims. IsCertificate line.now scripts.now (map claims_in claims.items) bytes.now)
        (OfFault (λ fault. LeavesGrammar line.now scripts.now bytes.now fault.line)) }
{
    read_text(
        alloc,
        &ScriptReader { line },
        b"pilot-cert 1",
        scripts,
        b"end",
        bytes,
    )
}
