//! Whether claimed keys cover what follows from them.

ghost use Rattle.std.specs.Prelude.{length, MatchOption};
ghost use Rattle.model_line.specs.{declared.script.Script.Script, Parameters.terminal_count};
ghost use Rattle.model_logic.specs.{Choice.declared_box, Histories.AreCovered};
ghost use Rattle.run_waves.specs.waves.Waves.{AreWaves};
ghost use Rattle.run_waves.specs.derived.Claims.{AreGateWaves, pairs_of};
ghost use Rattle.cert_claims.specs.{check.Verdicts.IsFirstUncovered};

use crate::check::claim::Uncovered;
use net_gates::Compiled;
use run_waves::derived::{first_uncovered_tick, nth};
use run_waves::waves::Runs;

/// The first terminal, and in it the first tick, where the claimed key does not cover that of the
/// terminal's gate.
pub fn first_uncovered(compiled: &Compiled<'_>, keys: &[Runs], waves: &[Runs]) -> Option<Uncovered>
    requires keys { AreWaves (terminal_count compiled.now.line.now) compiled.now.line.now.horizon
        keys.now }
    requires waves { AreWaves (length compiled.now.net.now.gates) compiled.now.line.now.horizon
        waves.now }
    ensures { (script : Script) →
        AreGateWaves compiled.now.line.now script compiled.now.net.now.gates (pairs_of keys.now)
        waves.now →
        MatchOption result
        (AreCovered compiled.now.line.now script (declared_box compiled.now.line.now)
        (pairs_of keys.now))
        (λ u. IsFirstUncovered compiled.now.line.now script (pairs_of keys.now) u) }
{
    for k in 0..compiled.line.terminals.len() {
        let terminal = k as u32;
        let claimed = nth(keys, terminal);
        let derived = nth(waves, compiled.net.key_gate(terminal).0);
        if let Some(tick) = first_uncovered_tick(claimed, derived) {
            return Some(Uncovered {
                terminal,
                tick,
                claimed: claimed.at(tick),
                derived: derived.at(tick),
            });
        }
    }
    None
}
