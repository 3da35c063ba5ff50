//! What the scripts of an external fault have to spare at a terminal.

ghost use Rattle.std.specs.Prelude.{◌≡◌, ◌<◌, ◌^◌, List, length, IfOk, is_some};
ghost use Rattle.std.specs.List.{All, list_any};
ghost use Rattle.model_line.specs.Parameters.{terminal_count};
ghost use Rattle.model_line.specs.declared.script.Script.{Script as ScriptOf};
ghost use Rattle.run_waves.specs.waves.Waves.{AreWaves};
ghost use Rattle.judge_races.specs.Lasting.{AreAllWaves};
ghost use Rattle.call_facts.specs.Spares.{IsSpareOf, least_of as least_in, least_of_each as least_in_each};
ghost use Rattle.call_facts.specs.Spares.{lesser as lesser_of, spare_in as spare_of};

use judge_races::{Race, Stretch, Terminal, races_at};
use model_line::Memory;
use net_gates::Compiled;
use run_waves::waves::Runs;
use std::alloc::Global;

/// How many ticks scripts have to spare at a terminal, by the waves of each: the least over their races.
/// Nothing where a trip may be set, or where nothing races.
pub fn spare_at(
    alloc: Global,
    compiled: &Compiled<'_>,
    all: &[Vec<Runs>],
    k: u32,
) -> Result<Option<u32>, Memory>
    requires terminal { k < terminal_count compiled.now.line.now }
    requires few { length all.now < 2 ^ 32 }
    requires waves { All (λ waves. AreWaves (length compiled.now.net.now.gates)
        compiled.now.line.now.horizon waves.items) all.now }
    ensures { IfOk result (λ spare. (scripts : List ScriptOf) →
        AreAllWaves compiled.now.line.now scripts compiled.now.net.now.gates all.now →
        IsSpareOf compiled.now.line.now scripts k spare) }
{
    let found = races_at(alloc, compiled, all, k)?;
    Ok(spare_in(&found))
}

fn spare_in(found: &Terminal) -> Option<u32>
    ensures { result ≡ spare_of found.now }
{
    if some_set(found.trips.as_slice()) {
        None
    } else {
        least_of_each(found.races.as_slice())
    }
}

// Whether the trip may be set in one of the scripts.
fn some_set(trips: &[Option<Stretch>]) -> bool
    ensures { result ≡ list_any is_some trips.now }
{
    trips.iter().any(|trip| is_set(trip))
}

fn is_set(trip: &Option<Stretch>) -> bool
    ensures { result ≡ is_some trip.now }
{
    trip.is_some()
}

fn least_of_each(all: &[Vec<Race>]) -> Option<u32>
    ensures { result ≡ least_in_each all.now }
{
    match all {
        [] => None,
        [races, more @ ..] => lesser(least_of(races.as_slice()), least_of_each(more)),
    }
}

fn least_of(races: &[Race]) -> Option<u32>
    ensures { result ≡ least_in races.now }
{
    match races {
        [] => None,
        [race, more @ ..] => lesser(Some(race.lack.saturating_sub(1)), least_of(more)),
    }
}

fn lesser(first: Option<u32>, second: Option<u32>) -> Option<u32>
    ensures { result ≡ lesser_of first second }
{
    match (first, second) {
        (None, second) => second,
        (Some(n), None) => Some(n),
        (Some(n), Some(m)) => Some(n.min(m)),
    }
}
