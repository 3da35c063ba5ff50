//! The engine over nets.

ghost use Rattle.std.specs.Prelude.{◌≡◌, ◌≤◌, IfOk, MatchResult, length};
ghost use Rattle.std.specs.List.{All};
ghost use Rattle.model_line.specs.Fits.{Fits};
ghost use Rattle.model_logic.specs.Histories.{History, IsLineHistory};
ghost use Rattle.run_changes.specs.rows.PlayRows.{run_rows};
ghost use Rattle.model_timing.specs.{Choice.timing_choice, Inside.IsTimingInside};
ghost use Rattle.base_memory.specs.Gives.{OfFault};
ghost use Rattle.cert_claims.specs.check.Check.{IsAccepted, IsCheckFault, IsSoundText};
ghost use Rattle.call_engine.specs.Calls.{AskedCertify, AskedCheck, AskedPlay, NoneFell};
ghost use Rattle.call_engine.specs.ScriptVerdicts.{IsScriptVerdict};
ghost use Rattle.call_engine.specs.NetCalls.{after_certify, after_check, after_play, calls_of};

use crate::engine::Engine;
use base_memory::Stopped;
use cert_claims::check::{CheckFault, Counts, check};
use judge_verdict::verdict::{ScriptVerdict, certify};
use model_line::{Memory, Script};
use model_timing::NamedTiming;
use net_gates::Compiled;
use run_changes::rows::play_rows;
use std::alloc::Global;
use std::marker::Model;

/// Passes each call on to the simulator, the certifier or the checker, and counts it for every line.
#[derive(Drop)]
pub struct NetEngine {
    plays: u64,
    certifies: u64,
    checks: u64,
}

impl Model for NetEngine {
    ghost use Rattle.call_engine.specs.NetCalls.{NetCalls};

    ghost Value = { NetCalls };

    ghost view = { λ e. record { plays = e.plays; certifies = e.certifies; checks = e.checks } };
}

impl NetEngine {
    /// All counts at 0.
    pub fn new() -> NetEngine
        ensures { result ≡ record { plays = 0; certifies = 0; checks = 0 } }
    {
        NetEngine {
            plays: 0,
            certifies: 0,
            checks: 0,
        }
    }
}

impl Engine for NetEngine {
    ghost use Rattle.call_engine.specs.NetCalls.{calls_of};

    ghost calls = { λ e. calls_of e };

    fn play(
        &mut self,
        alloc: Global,
        compiled: &Compiled<'_>,
        script: &Script,
        timing: &NamedTiming,
    ) -> Result<Vec<u8>, Memory>
        requires inside { IsTimingInside compiled.now.line.now timing.now.timing }
        ensures rows { IfOk result (λ text. (h : History) →
            IsLineHistory compiled.now.line.now script.now
            (timing_choice compiled.now.line.now timing.now.timing) h →
            text.items ≡ run_rows timing.now.name script.now.name compiled.now.line.now h) }
        ensures asked { AskedPlay compiled.now.line.now (calls_of self.old) (calls_of self.new) }
        ensures kept { NoneFell (calls_of self.old) (calls_of self.new) }

        // Its own number is raised by one, and no other.
        ensures counted { self.new ≡ after_play self.old }
    {
        self.plays = self.plays.saturating_add(1);
        play_rows(alloc, compiled, script, timing)
    }

    fn certify(
        &mut self,
        alloc: Global,
        compiled: &Compiled<'_>,
        script: &Script,
    ) -> Result<ScriptVerdict, Memory>
        requires fits { Fits compiled.now.line.now script.now }
        ensures certified { IfOk result (λ said. IsScriptVerdict compiled.now.line.now script.now
            said) }
        ensures asked { AskedCertify compiled.now.line.now (calls_of self.old) (calls_of self.new) }
        ensures kept { NoneFell (calls_of self.old) (calls_of self.new) }
        ensures counted { self.new ≡ after_certify self.old }
    {
        self.certifies = self.certifies.saturating_add(1);
        certify(alloc, compiled, script)
    }

    fn check(
        &mut self,
        alloc: Global,
        compiled: &Compiled<'_>,
        scripts: &[Script],
        cert: &[u8],
    ) -> Result<Counts, Stopped<CheckFault>>
        requires fits { All (Fits compiled.now.line.now) scripts.now }
        requires few { length scripts.now ≤ 64 }
        ensures exact { MatchResult result
            (λ counts. IsAccepted compiled.now.line.now scripts.now cert.now counts)
            (OfFault (IsCheckFault compiled.now.line.now scripts.now cert.now)) }
        ensures yes { IfOk result (λ _. IsSoundText compiled.now.line.now scripts.now cert.now) }
        ensures asked { AskedCheck compiled.now.line.now (calls_of self.old) (calls_of self.new) }
        ensures kept { NoneFell (calls_of self.old) (calls_of self.new) }
        ensures counted { self.new ≡ after_check self.old }
    {
        self.checks = self.checks.saturating_add(1);
        check(alloc, compiled, scripts, cert)
    }
}
