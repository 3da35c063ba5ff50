//! The waves of a record.

ghost use Rattle.std.specs.Prelude.{◌≡◌, ◌≤◌, length, min, IfOk};
ghost use Rattle.judge_match.specs.{matching.Heads.values_of, matching.SetLevels.IsSetBetween, matching.SetLevels.IsSetBy};
ghost use Rattle.judge_match.specs.matching.Waves.{known_level, seen_of, seen_values, wave_of, waves_of};

use crate::matching::change::Change;
use crate::matching::check::is_of;
use crate::matching::heads::Head;
use crate::matching::seen::Seen;
use model_line::{Line, Memory};
use run_signal::Tern;
use run_waves::waves::Runs;
use std::alloc::Global;

/// What was seen under a head.
pub fn seen(alloc: Global, line: &Line, head: &Head) -> Result<Seen, Memory>
    ensures { IfOk result (λ seen. seen_values seen ≡ seen_of line.now (values_of head.now)) }
{
    Ok(Seen {
        script: head.script,
        keys: waves(alloc, line, &head.changes, false)?,
        trips: waves(alloc, line, &head.changes, true)?,
    })
}

// The waves of all keys, or of all trips.
fn waves(alloc: Global, line: &Line, changes: &[Change], trip: bool) -> Result<Vec<Runs>, Memory>
    ensures { IfOk result (λ waves. waves.items ≡ waves_of line.now changes.now trip) }
{
    let mut waves = Vec::new(alloc);
    for terminal in 0..line.terminals.len() {
        waves.push(wave(alloc, line.horizon, changes, trip, terminal as u32)?)?;
    }
    Ok(waves)
}

// The wave of a signal.
fn wave(
    alloc: Global,
    horizon: u32,
    changes: &[Change],
    trip: bool,
    terminal: u32,
) -> Result<Runs, Memory>
    requires { horizon ≤ 4000 }
    ensures { IfOk result (λ wave. wave ≡ wave_of horizon changes.now trip terminal) }
{
    let levels = levels(alloc, horizon, changes, trip, terminal)?;
    let mut wave = Runs::new(alloc);
    for level in &levels {
        wave.push(*level, 1)?;
    }
    Ok(wave)
}

// The levels of a signal, tick by tick. The last of its changes not after a tick counts there: from
// the last change back each one sets the ticks that no later one has set, so that each tick is set
// once at most.
fn levels(
    alloc: Global,
    horizon: u32,
    changes: &[Change],
    trip: bool,
    terminal: u32,
) -> Result<Vec<Tern>, Memory>
    ensures { IfOk result (λ levels. levels.items ≡ wave_of horizon changes.now trip terminal) }
{
    let mut levels = Vec::with_capacity(alloc, horizon as usize)?;
    levels.resize(horizon as usize, Tern::Zero).unwrap();
    let mut end = horizon as usize;
    let mut rest = changes.len();
    'from_the_last: while rest > 0 {
        rest -= 1;
        let change = changes[rest];
        end = set_by(&mut levels, change, trip, terminal, end);
    }
    Ok(levels)
}

// Sets the ticks that a change decides, where those from `end` on are set, and answers from which
// tick on they are set then.
fn set_by(levels: &mut Vec<Tern>, change: Change, trip: bool, terminal: u32, end: usize) -> usize
    requires { end ≤ length levels.old.items }
    ensures long { length levels.new.items ≡ length levels.old.items }
    ensures set { IsSetBy levels.old.items levels.new.items terminal trip change end result }
{
    if is_of(change, terminal, trip) {
        set_back(levels, known(change.level), change.tick as usize, end)
    } else {
        end
    }
}

// Sets the ticks from one on until another, and answers where the ticks that are set begin.
fn set_back(levels: &mut Vec<Tern>, level: Tern, from: usize, end: usize) -> usize
    requires { end ≤ length levels.old.items }
    ensures begins { result ≡ min from end }
    ensures long { length levels.new.items ≡ length levels.old.items }
    ensures set { IsSetBetween levels.old.items levels.new.items level from end }
{
    let mut t = end;
    while t > from {
        t -= 1;
        levels[t] = level;
    }
    from.min(end)
}

// A level that is known.
fn known(level: bool) -> Tern
    ensures { result ≡ known_level level }
{
    if level { Tern::One } else { Tern::Zero }
}
