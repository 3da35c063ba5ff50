//! Where a record cannot be.

ghost use Rattle.std.specs.Prelude.{◌≡◌, ◌<◌, length, MatchOption};
ghost use Rattle.model_line.specs.{declared.script.Script.Script, Parameters.terminal_count};
ghost use Rattle.run_waves.specs.waves.Waves.{AreWaves};
ghost use Rattle.run_waves.specs.derived.Claims.{AreGateWaves, pairs_of};
ghost use Rattle.judge_match.specs.matching.Signal.{IsSignalChecked};
ghost use Rattle.judge_match.specs.{matching.Seen.AreSeen, matching.Clash.AllAllowed, matching.Clash.IsTerminalAllowed};
ghost use Rattle.judge_match.specs.{matching.Clash.IsTerminalClash, matching.Clash.IsFirstClash};

use crate::matching::seen::Seen;
use net_gates::Compiled;
use run_signal::{Signal, Tern};
use run_waves::derived::{first_uncovered_tick, nth};
use run_waves::waves::Runs;

/// A place where what was seen is not allowed by what is derived, and both values there.
#[derive(Clone, Copy)]
pub struct Clash {
    pub terminal: u32,
    pub trip: bool,
    pub tick: u32,
    pub level: bool,
    pub derived: Tern,
}

/// The first such place: by terminal, the key before the trip, then by tick.
pub fn first_clash(compiled: &Compiled<'_>, seen: &Seen, waves: &[Runs]) -> Option<Clash>
    requires seen { AreSeen compiled.now.line.now seen.now }
    requires waves { AreWaves
        (length compiled.now.net.now.gates) compiled.now.line.now.horizon waves.now }
    ensures { (script : Script) →
        AreGateWaves compiled.now.line.now script compiled.now.net.now.gates
        (pairs_of seen.now.keys.items) waves.now →
        MatchOption result (AllAllowed compiled.now.line.now script seen.now)
        (λ c. IsFirstClash compiled.now.line.now script seen.now c.terminal c.trip c.tick c.level
        c.derived) }
{
    for k in 0..compiled.line.terminals.len() {
        if let Some(clash) = terminal_clash(compiled, seen, waves, k as u32) {
            return Some(clash);
        }
    }
    None
}

// The first such place of a terminal.
fn terminal_clash(
    compiled: &Compiled<'_>,
    seen: &Seen,
    waves: &[Runs],
    terminal: u32,
) -> Option<Clash>
    requires seen { AreSeen compiled.now.line.now seen.now }
    requires waves { AreWaves
        (length compiled.now.net.now.gates) compiled.now.line.now.horizon waves.now }
    requires terminal { terminal < terminal_count compiled.now.line.now }
    ensures { (script : Script) →
        AreGateWaves compiled.now.line.now script compiled.now.net.now.gates
        (pairs_of seen.now.keys.items) waves.now →
        MatchOption result (IsTerminalAllowed compiled.now.line.now script seen.now terminal)
        (λ c. (c.terminal ≡ terminal) × IsTerminalClash compiled.now.line.now script seen.now
        terminal
        c.trip c.tick c.level c.derived) }
{
    let key = nth(waves, compiled.net.key_gate(terminal).0);
    let seen_key = nth(seen.keys.as_slice(), terminal);
    if let Some(clash) = signal_clash(key, seen_key, terminal, false) {
        return Some(clash);
    }
    let trip = nth(waves, compiled.net.trip_gate(terminal).0);
    let seen_trip = nth(seen.trips.as_slice(), terminal);
    signal_clash(trip, seen_trip, terminal, true)
}

// The first tick where the derived wave does not cover the one that was seen.
fn signal_clash(derived: &Runs, seen: &Runs, terminal: u32, trip: bool) -> Option<Clash>
    requires { length seen.now ≡ length derived.now }
    ensures { IsSignalChecked derived.now seen.now terminal trip result }
{
    let tick = first_uncovered_tick(derived, seen)?;
    Some(Clash {
        terminal,
        trip,
        tick,
        level: seen.at(tick).must(0),
        derived: derived.at(tick),
    })
}
