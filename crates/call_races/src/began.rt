//! What comes on where a trip may be set.

ghost use Rattle.std.specs.Prelude.{◌≡◌, ◌<◌, ◌++◌, length, OnOk, IfOk};
ghost use Rattle.model_line.specs.declared.script.Script.{Script};
ghost use Rattle.model_logic.specs.Choice.{declared_box};
ghost use Rattle.model_logic.specs.Histories.{PairHistory, IsPairHistory};
ghost use Rattle.net_gates.specs.Formulas.{formula_of};
ghost use Rattle.run_waves.specs.waves.Waves.{AreWaves};
ghost use Rattle.judge_races.specs.Gates.{AreIn};
ghost use Rattle.net_gates.specs.Formulas.{trees_of};
ghost use Rattle.judge_races.specs.Lasting.{AreHistoryWaves, may_be};
ghost use Rattle.call_races.specs.Fault.{AreAllIn, operands_of};
ghost use Rattle.call_races.specs.Trips.{are_on as are_on_so, begin_words, came_on as came_on_so};
ghost use Rattle.call_races.specs.Trips.{came_words};

use crate::words::push_behind;
use model_line::Memory;
use net_gates::{Compiled, GateId};
use run_signal::Signal;
use run_waves::derived::nth;
use run_waves::waves::Runs;

// Whether a gate may be on at a tick.
fn may_be_on(compiled: &Compiled<'_>, waves: &[Runs], id: GateId, t: u32) -> bool
    requires exists { id.0 < length compiled.now.net.now.gates }
    requires waves { AreWaves (length compiled.now.net.now.gates) compiled.now.line.now.horizon
        waves.now }
    requires tick { t < compiled.now.line.now.horizon }
    ensures { (script : Script) (w : PairHistory) →
        AreHistoryWaves compiled.now.line.now script compiled.now.net.now.gates waves.now →
        IsPairHistory compiled.now.line.now script (declared_box compiled.now.line.now) w →
        result ≡ may_be compiled.now.line.now script w
        (formula_of compiled.now.net.now.gates id.0) t }
{
    nth(waves, id.0).at(t).may(0)
}

// Whether it may be, and may not at the tick before.
fn came_on(compiled: &Compiled<'_>, waves: &[Runs], id: GateId, t: u32) -> bool
    requires exists { id.0 < length compiled.now.net.now.gates }
    requires waves { AreWaves (length compiled.now.net.now.gates) compiled.now.line.now.horizon
        waves.now }
    requires tick { t < compiled.now.line.now.horizon }
    ensures { (script : Script) (w : PairHistory) →
        AreHistoryWaves compiled.now.line.now script compiled.now.net.now.gates waves.now →
        IsPairHistory compiled.now.line.now script (declared_box compiled.now.line.now) w →
        result ≡ came_on_so compiled.now.line.now script w t
        (formula_of compiled.now.net.now.gates id.0) }
{
    if t == 0 {
        may_be_on(compiled, waves, id, 0)
    } else {
        may_be_on(compiled, waves, id, t) && !may_be_on(compiled, waves, id, t - 1)
    }
}

// Whether all these gates may be on at a tick.
fn are_on(compiled: &Compiled<'_>, waves: &[Runs], ids: &[GateId], t: u32) -> bool
    requires exist { AreIn compiled.now.net.now.gates ids.now }
    requires waves { AreWaves (length compiled.now.net.now.gates) compiled.now.line.now.horizon
        waves.now }
    requires tick { t < compiled.now.line.now.horizon }
    ensures { (script : Script) (w : PairHistory) →
        AreHistoryWaves compiled.now.line.now script compiled.now.net.now.gates waves.now →
        IsPairHistory compiled.now.line.now script (declared_box compiled.now.line.now) w →
        result ≡ are_on_so compiled.now.line.now script w t
        (trees_of compiled.now.net.now.gates ids.now) }
{
    match ids {
        [] => true,
        [id, more @ ..] => may_be_on(compiled, waves, *id, t) && are_on(compiled, waves, more, t),
    }
}

// Appends the words of the operands that come on at a tick, the first behind this.
fn push_came(
    text: &mut Vec<u8>,
    compiled: &Compiled<'_>,
    waves: &[Runs],
    before: &[u8],
    ids: &[GateId],
    t: u32,
) -> Result<(), Memory>
    requires exist { AreIn compiled.now.net.now.gates ids.now }
    requires waves { AreWaves (length compiled.now.net.now.gates) compiled.now.line.now.horizon
        waves.now }
    requires tick { t < compiled.now.line.now.horizon }
    ensures { OnOk result ((script : Script) (w : PairHistory) →
        AreHistoryWaves compiled.now.line.now script compiled.now.net.now.gates waves.now →
        IsPairHistory compiled.now.line.now script (declared_box compiled.now.line.now) w →
        text.new.items ≡ text.old.items ++ came_words compiled.now.line.now script w t before.now
        (trees_of compiled.now.net.now.gates ids.now)) }
{
    match ids {
        [] => Ok(()),
        [id, more @ ..] => {
            if came_on(compiled, waves, *id, t) {
                push_behind(text, compiled, before, *id)?;
                push_came(text, compiled, waves, b";", more, t)
            } else {
                push_came(text, compiled, waves, before, more, t)
            }
        }
    }
}

/// Appends the words of what comes on at a tick in the first conjunction that may be on then.
pub fn push_begins(
    text: &mut Vec<u8>,
    compiled: &Compiled<'_>,
    waves: &[Runs],
    all: &[Vec<GateId>],
    t: u32,
) -> Result<(), Memory>
    requires exist { AreAllIn compiled.now.net.now.gates all.now }
    requires waves { AreWaves (length compiled.now.net.now.gates) compiled.now.line.now.horizon
        waves.now }
    requires tick { t < compiled.now.line.now.horizon }
    ensures { OnOk result ((script : Script) (w : PairHistory) →
        AreHistoryWaves compiled.now.line.now script compiled.now.net.now.gates waves.now →
        IsPairHistory compiled.now.line.now script (declared_box compiled.now.line.now) w →
        text.new.items ≡ text.old.items ++ begin_words compiled.now.line.now script w t
        (operands_of compiled.now.net.now.gates all.now)) }
{
    match all {
        [] => Ok(()),
        [ids, more @ ..] => {
            if are_on(compiled, waves, ids, t) {
                push_came(text, compiled, waves, b"", ids, t)
            } else {
                push_begins(text, compiled, waves, more, t)
            }
        }
    }
}
