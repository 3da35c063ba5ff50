//! The check of a text of settled trees.

ghost use Rattle.std.specs.Prelude.{◌≡◌, ◌≤◌, ℕ, List, length, map, IfOk, MatchResult};
ghost use Rattle.std.specs.List.{All};
ghost use Rattle.base_memory.specs.Gives.{OfFault};
ghost use Rattle.model_line.specs.Fits.{Fits};
ghost use Rattle.cert_claims.specs.check.Scripts.{EachBelow};
ghost use Rattle.cert_settle.specs.Grammar.{HasOneEach, IsSettleText};
ghost use Rattle.cert_settle.specs.Reading.{results_in};
ghost use Rattle.cert_settle.specs.Check.{IsAccepted, IsSettleFault, IsSoundText};
ghost use Rattle.cert_settle.specs.Results.{AreTold};

use crate::claim::TreeClaim;
use crate::counts::counts_of;
use crate::fault::{SettleFault, in_script};
use crate::laws::a_settle_text_has_one_meaning;
use crate::read::read_settle_text;
use crate::result::check_results;
use base_memory::Stopped;
use cert_claims::check::Counts;
use model_line::Script;
use net_gates::Compiled;
use std::alloc::Global;

/// Checks the settled trees of the scripts, and counts what each obligation comes to: `no` where its
/// result is a `no`, yes where each leaf of its tree is yes, else undecided. The error is the first
/// fault: the first line that leaves the grammar; else, by script and terminal, the first yes leaf
/// that is not shown over its part, or what is wrong with the timing of a `no`.
pub fn check_settle(
    alloc: Global,
    compiled: &Compiled<'_>,
    scripts: &[Script],
    cert: &[u8],
) -> Result<Counts, Stopped<SettleFault>>
    requires fits { All (Fits compiled.now.line.now) scripts.now }
    requires few { length scripts.now ≤ 4096 }
    ensures exact { MatchResult result
        (λ counts. IsAccepted compiled.now.line.now scripts.now cert.now counts)
        (OfFault (IsSettleFault compiled.now.line.now scripts.now cert.now)) }
    // Whatever the trees are: every choice of fractions inside meets an obligation whose tree has yes
    // leaves alone; the timing of a `no` is inside, and its history fails it.
    ensures sound { IfOk result (λ _. IsSoundText compiled.now.line.now scripts.now cert.now) }
{
    a_settle_text_has_one_meaning();
    match read_settle_text(alloc, compiled.line, scripts, cert) {
        Ok(parts) => check_scripts(alloc, compiled, scripts, parts.as_slice()),
        Err(Stopped::Fault(fault)) => Err(Stopped::Fault(SettleFault::Line(fault.line))),
        Err(Stopped::Memory) => Err(Stopped::Memory),
    }
}

// Checks what is said of each script, in order.
fn check_scripts(
    alloc: Global,
    compiled: &Compiled<'_>,
    scripts: &[Script],
    parts: &[Vec<TreeClaim>],
) -> Result<Counts, Stopped<SettleFault>>
    requires fits { All (Fits compiled.now.line.now) scripts.now }
    requires few { length scripts.now ≤ 4096 }
    requires many { length parts.now ≡ length scripts.now }
    requires one_each { All (HasOneEach compiled.now.line.now) (map results_in parts.now) }
    ensures exact { (bytes : List ℕ) →
        IsSettleText compiled.now.line.now scripts.now (map results_in parts.now) bytes →
        MatchResult result
        (λ counts. IsAccepted compiled.now.line.now scripts.now bytes counts)
        (OfFault (IsSettleFault compiled.now.line.now scripts.now bytes)) }
    ensures told { IfOk result (λ _. EachBelow (AreTold compiled.now.line.now) scripts.now
        (map results_in parts.now) (length scripts.now)) }
{
    for i in 0..scripts.len() {
        match check_results(alloc, compiled, &scripts[i], parts[i].as_slice()) {
            Ok(()) => {}
            Err(Stopped::Fault(fault)) => return Err(Stopped::Fault(in_script(i as u32, fault))),
            Err(Stopped::Memory) => return Err(Stopped::Memory),
        }
    }
    Ok(counts_of(parts))
}
