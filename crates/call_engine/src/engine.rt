//! An engine: what is asked for each play, for the verdicts of each script and for each check.

ghost use Rattle.std.specs.Prelude.{◌≡◌, ◌≤◌, IfOk, MatchResult, length};
ghost use Rattle.std.specs.List.{All};
ghost use Rattle.model_line.specs.Fits.{Fits};
ghost use Rattle.model_logic.specs.Histories.{History, IsLineHistory};
ghost use Rattle.run_changes.specs.rows.PlayRows.{run_rows};
ghost use Rattle.model_timing.specs.{Choice.timing_choice, Inside.IsTimingInside};
ghost use Rattle.base_memory.specs.Gives.{OfFault};
ghost use Rattle.cert_claims.specs.check.Check.{IsAccepted, IsCheckFault, IsSoundText};
ghost use Rattle.call_engine.specs.Calls.{AskedCertify, AskedCheck, AskedPlay, Calls, NoneFell};
ghost use Rattle.call_engine.specs.ScriptVerdicts.{IsScriptVerdict};

use base_memory::Stopped;
use cert_claims::check::{CheckFault, Counts};
use judge_verdict::verdict::ScriptVerdict;
use model_line::{Memory, Script};
use model_timing::NamedTiming;
use net_gates::Compiled;
use std::alloc::Global;

/// Plays, certifies and checks over the net of a line, and counts for each line how often it was
/// asked.
///
/// Each call raises its own count for the line that it is handed, whatever it answers. A count
/// stands still at `u64::MAX`, and none falls. Lines with the same values have the same counts.
pub trait Engine {
    /// How often it was asked, for each line.
    ghost calls: { Self → Calls };

    /// The rows of one timing and script.
    fn play(
        &mut self,
        alloc: Global,
        compiled: &Compiled<'_>,
        script: &Script,
        timing: &NamedTiming,
    ) -> Result<Vec<u8>, Memory>
        requires inside { IsTimingInside compiled.now.line.now timing.now.timing }
        ensures rows { IfOk result (λ text. (h : History) →
            IsLineHistory compiled.now.line.now script.now
            (timing_choice compiled.now.line.now timing.now.timing) h →
            text.items ≡ run_rows timing.now.name script.now.name compiled.now.line.now h) }
        ensures asked { AskedPlay compiled.now.line.now (calls self.old) (calls self.new) }
        ensures kept { NoneFell (calls self.old) (calls self.new) };

    /// The key waves and verdicts of a script.
    fn certify(
        &mut self,
        alloc: Global,
        compiled: &Compiled<'_>,
        script: &Script,
    ) -> Result<ScriptVerdict, Memory>
        requires fits { Fits compiled.now.line.now script.now }
        ensures certified { IfOk result (λ said. IsScriptVerdict compiled.now.line.now script.now
            said) }
        ensures asked { AskedCertify compiled.now.line.now (calls self.old) (calls self.new) }
        ensures kept { NoneFell (calls self.old) (calls self.new) };

    /// The counts of a certificate of the scripts, or its first fault.
    fn check(
        &mut self,
        alloc: Global,
        compiled: &Compiled<'_>,
        scripts: &[Script],
        cert: &[u8],
    ) -> Result<Counts, Stopped<CheckFault>>
        requires fits { All (Fits compiled.now.line.now) scripts.now }
        requires few { length scripts.now ≤ 64 }
        ensures exact { MatchResult result
            (λ counts. IsAccepted compiled.now.line.now scripts.now cert.now counts)
            (OfFault (IsCheckFault compiled.now.line.now scripts.now cert.now)) }
        ensures yes { IfOk result (λ _. IsSoundText compiled.now.line.now scripts.now cert.now) }
        ensures asked { AskedCheck compiled.now.line.now (calls self.old) (calls self.new) }
        ensures kept { NoneFell (calls self.old) (calls self.new) };
}
