//! A script's part of a certificate, printed.

ghost use Rattle.std.specs.Prelude.{◌≡◌, ◌<◌, ◌++◌, ℕ, List, [], length, map, OnOk};
ghost use Rattle.model_line.specs.Parameters.{terminal_count};
ghost use Rattle.base_text.specs.lines.Named.{named};
ghost use Rattle.base_text.specs.lines.SpacedNumbers.{numbers_text};
ghost use Rattle.cert_claims.specs.text.Grammar.{no_words, verdict_words};
ghost use Rattle.cert_claims.specs.text.Grammar.{verdict_in};
ghost use Rattle.cert_claims.specs.text.Grammar.{terminal_names, Place, Said, key_of, verdict_of};
ghost use Rattle.cert_claims.specs.text.Grammar.{says_key, says_verdict};
ghost use Rattle.cert_claims.specs.text.Text.{fed, line_text, lines_text, part_text};

use crate::text::claim::Claim;
use crate::text::read::name_at;
use base_text::lines::push_number;
use model_line::{Line, Memory, Name, Script};
use run_waves::waves::{Runs, print_runs};
use std::alloc::Global;

/// Appends each number after one space.
pub(crate) fn push_numbers(text: &mut Vec<u8>, numbers: &[u32]) -> Result<(), Memory>
    ensures { OnOk result (text.new.items ≡ text.old.items ++ numbers_text numbers.now) }
{
    for number in numbers {
        push_number(text, *number)?;
    }
    Ok(())
}

/// Appends a `no` and its numbers.
pub fn push_no(text: &mut Vec<u8>, numbers: &[u32]) -> Result<(), Memory>
    ensures { OnOk result (text.new.items ≡ text.old.items ++ no_words numbers.now) }
{
    text.extend_from_slice(b"no")?;
    push_numbers(text, numbers)
}

// Appends the words of a verdict.
fn push_words(text: &mut Vec<u8>, claim: &Claim) -> Result<(), Memory>
    ensures { OnOk result (text.new.items ≡ text.old.items ++ verdict_words (verdict_in claim.now)) }
{
    match claim {
        Claim::Yes => text.extend_from_slice(b"yes")?,
        Claim::No(numbers) => push_no(text, numbers.as_slice())?,
        Claim::Undecided => text.extend_from_slice(b"undecided")?,
    }
    Ok(())
}

/// Appends the start of a line that goes on after a name.
pub fn push_start(text: &mut Vec<u8>, word: &[u8], name: Name) -> Result<(), Memory>
    ensures { OnOk result (text.new.items ≡ text.old.items ++ named word.now name []) }
{
    text.extend_from_slice(word)?;
    text.extend_from_slice(b" ")?;
    text.extend_from_slice(name.bytes())?;
    text.extend_from_slice(b" ")?;
    Ok(())
}

/// Appends the line of this start and a name.
pub fn push_named(text: &mut Vec<u8>, start: &[u8], name: Name) -> Result<(), Memory>
    ensures { OnOk result (text.new.items ≡ text.old.items ++ fed (start.now ++ name)) }
{
    text.extend_from_slice(start)?;
    text.extend_from_slice(name.bytes())?;
    text.extend_from_slice(b"\n")?;
    Ok(())
}

// What is said of a terminal in one line.
trait TerminalLine {
    ghost place: { List ℕ → Place };

    ghost says: { Self → Said };

    // Appends the line of the terminal with this name.
    fn push_line(&self, alloc: Global, text: &mut Vec<u8>, name: Name) -> Result<(), Memory>
        ensures { OnOk result (text.new.items
            ≡ text.old.items ++ fed (line_text (place name) (says self.now))) };
}

impl TerminalLine for Runs {
    ghost place = { key_of };

    ghost says = { says_key };

    fn push_line(&self, alloc: Global, text: &mut Vec<u8>, name: Name) -> Result<(), Memory> {
        let runs = print_runs(alloc, self)?;
        push_start(text, b"key", name)?;
        text.extend_from_slice(&runs)?;
        text.extend_from_slice(b"\n")?;
        Ok(())
    }
}

impl TerminalLine for Claim {
    ghost place = { verdict_of };

    ghost says = { λ claim. says_verdict (verdict_in claim) };

    fn push_line(&self, _alloc: Global, text: &mut Vec<u8>, name: Name) -> Result<(), Memory> {
        push_start(text, b"verdict", name)?;
        push_words(text, self)?;
        text.extend_from_slice(b"\n")?;
        Ok(())
    }
}

/// Appends a script's part of a certificate: its line, and a key line and a verdict line for each
/// terminal, in line order.
pub fn push_part(
    alloc: Global,
    text: &mut Vec<u8>,
    line: &Line,
    script: &Script,
    keys: &[Runs],
    verdicts: &[Claim],
) -> Result<(), Memory>
    requires keys { length keys.now ≡ terminal_count line.now }
    requires verdicts { length verdicts.now ≡ terminal_count line.now }
    ensures { OnOk result (text.new.items ≡ text.old.items
        ++ part_text line.now script.now
        (record { keys = keys.now; verdicts = map verdict_in verdicts.now })) }
{
    push_named(text, b"script ", script.name)?;
    push_lines(alloc, text, line, keys)?;
    push_lines(alloc, text, line, verdicts)
}

// Appends a line for each terminal, in line order.
fn push_lines<L: TerminalLine>(
    alloc: Global,
    text: &mut Vec<u8>,
    line: &Line,
    said: &[L],
) -> Result<(), Memory>
    requires { length said.now ≡ terminal_count line.now }
    ensures { OnOk result (text.new.items ≡ text.old.items
        ++ lines_text (map L.place (terminal_names line.now)) (map L.says said.now)) }
{
    for k in 0..line.terminals.len() {
        said[k].push_line(alloc, text, name_at(line, k))?;
    }
    Ok(())
}
