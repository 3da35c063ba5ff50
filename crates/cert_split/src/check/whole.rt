//! The check of a text of split trees.

ghost use Rattle.std.specs.Prelude.{◌≡◌, ◌≤◌, ℕ, List, length, map, IfOk, MatchResult};
ghost use Rattle.std.specs.List.{All};
ghost use Rattle.base_memory.specs.Gives.{OfFault};
ghost use Rattle.model_line.specs.Fits.{Fits};
ghost use Rattle.cert_claims.specs.check.Scripts.{EachBelow};
ghost use Rattle.cert_split.specs.text.Grammar.{HasOneEach, IsSplitText, LeavesGrammar};
ghost use Rattle.cert_split.specs.text.Reading.{results_in};
ghost use Rattle.cert_split.specs.check.Check.{IsAccepted, IsSplitFault, IsSoundText};
ghost use Rattle.cert_split.specs.check.Results.{AreTold};

use crate::check::counts::counts_of;
use crate::check::fault::{SplitFault, in_script};
use crate::check::result::check_results;
use crate::text::{
    SplitClaim, a_split_text_has_one_meaning, a_split_text_leaves_at_one_line, read_split_text,
};
use base_memory::Stopped;
use base_text::lines::TextFault;
use cert_claims::check::Counts;
use model_line::{Line, Script};
use net_gates::Compiled;
use std::alloc::Global;

/// Checks the split trees of the scripts, and counts what each obligation comes to: `no` where its
/// result is a `no`, yes where each leaf of its tree is yes, else undecided. The error is the first
/// fault: the first line that leaves the grammar; else, by script and terminal, the first yes leaf
/// whose rule is not held, or what is wrong with the numbers of a `no`.
pub fn check_split(
    alloc: Global,
    compiled: &Compiled<'_>,
    scripts: &[Script],
    cert: &[u8],
) -> Result<Counts, Stopped<SplitFault>>
    requires fits { All (Fits compiled.now.line.now) scripts.now }
    requires few { length scripts.now ≤ 64 }
    ensures exact { MatchResult result
        (λ counts. IsAccepted compiled.now.line.now scripts.now cert.now counts)
        (OfFault (IsSplitFault compiled.now.line.now scripts.now cert.now)) }
    // Whatever the trees are: each history of each choice inside meets an obligation whose tree has
    // yes leaves alone; the numbers of a `no` are inside, and their history fails it.
    ensures sound { IfOk result (λ _. IsSoundText compiled.now.line.now scripts.now cert.now) }
{
    a_split_text_has_one_meaning();
    match read_split_text(alloc, compiled.line, scripts, cert) {
        Ok(parts) => check_scripts(alloc, compiled, scripts, parts.as_slice()),
        Err(Stopped::Fault(fault)) => {
            Err(Stopped::Fault(of_text(compiled.line, scripts, cert, fault)))
        }
        Err(Stopped::Memory) => Err(Stopped::Memory),
    }
}

// The fault of the text. Split trees of these scripts have few lines, so the number fits.
fn of_text(line: &Line, scripts: &[Script], cert: &[u8], fault: TextFault) -> SplitFault
    requires few { length scripts.now ≤ 64 }
    requires leaves { LeavesGrammar line.now scripts.now cert.now fault.line }
    ensures { IsSplitFault line.now scripts.now cert.now result }
{
    a_split_text_leaves_at_one_line();
    SplitFault::Line(fault.line as u32)
}

// Checks what is said of each script, in order.
fn check_scripts(
    alloc: Global,
    compiled: &Compiled<'_>,
    scripts: &[Script],
    parts: &[Vec<SplitClaim>],
) -> Result<Counts, Stopped<SplitFault>>
    requires fits { All (Fits compiled.now.line.now) scripts.now }
    requires few { length scripts.now ≤ 64 }
    requires many { length parts.now ≡ length scripts.now }
    requires one_each { All (HasOneEach compiled.now.line.now) (map results_in parts.now) }
    ensures exact { (bytes : List ℕ) →
        IsSplitText compiled.now.line.now scripts.now (map results_in parts.now) bytes → MatchResult
        result
        (λ counts. IsAccepted compiled.now.line.now scripts.now bytes counts)
        (OfFault (IsSplitFault compiled.now.line.now scripts.now bytes)) }
    ensures told { IfOk result (λ _. EachBelow (AreTold compiled.now.line.now) scripts.now
        (map results_in parts.now) (length scripts.now)) }
{
    for i in 0..scripts.len() {
        match check_results(alloc, compiled, &scripts[i], parts[i].as_slice()) {
            Ok(()) => {}
            Err(Stopped::Fault(fault)) => return Err(Stopped::Fault(in_script(i as u32, fault))),
            Err(Stopped::Memory) => return Err(Stopped::Memory),
        }
    }
    Ok(counts_of(parts))
}
