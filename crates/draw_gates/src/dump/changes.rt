//! The changes of a value change dump.

ghost use Rattle.std.specs.Prelude.{◌≡◌, ◌<◌, ◌≤◌, ◌+◌, ◌-◌, ◌++◌, OnOk};
ghost use Rattle.model_history.specs.Each.{each_below};
ghost use Rattle.run_step.specs.Played.{is_on};
ghost use Rattle.draw_gates.specs.dump.Dump.{time_text, value_text, change_text, first_text};
ghost use Rattle.draw_gates.specs.dump.Dump.{next_text, timed_text, tick_text, changes_text};

use crate::dump::gates::on_at;
use crate::dump::put::{put, put_number};
use crate::dump::variables::put_code;
use model_line::Memory;
use run_changes::rows::level_word;
use run_signal::Level;
use run_ticks::net::Waves;
use std::alloc::Global;

/// How large a run is: so many ticks of so many microseconds, and so many gates.
#[derive(Clone, Copy)]
pub struct Extent {
    pub tick_us: u32,
    pub horizon: u32,
    pub gates: u32,
    pub ghost tick_in_range: { tick_us ≤ 1000000 },
    pub ghost horizon_in_range: { (1 ≤ horizon) × (horizon ≤ 4000) },
    pub ghost few: { gates ≤ 512 },
}

/// Appends all values and changes of a run.
#[tactic(auto, unfolding(crate::specs::dump::Dump::changes_text))]
pub fn put_changes(
    alloc: Global,
    text: &mut Vec<u8>,
    waves: &Waves<Level>,
    extent: Extent,
) -> Result<(), Memory>
    requires horizon { waves.now.horizon ≡ extent.horizon }
    requires gates { waves.now.width ≡ extent.gates }
    ensures { OnOk result (text.new.items
        ≡ text.old.items
        ++ changes_text extent.tick_us extent.horizon (is_on waves.now) extent.gates) }
{
    put_time(text, extent.tick_us, 0)?;
    put(text, b"$dumpvars\n")?;
    put_first(text, waves, extent.gates)?;
    put(text, b"$end\n")?;
    put_ticks(alloc, text, waves, extent)?;
    put_time(text, extent.tick_us, extent.horizon)
}

// Appends every value at tick 0.
fn put_first(text: &mut Vec<u8>, waves: &Waves<Level>, gates: u32) -> Result<(), Memory>
    requires few { gates ≤ 512 }
    requires gates { waves.now.width ≡ gates }
    requires some { 1 ≤ waves.now.horizon }
    ensures { OnOk result (text.new.items
        ≡ text.old.items ++ each_below gates (first_text (is_on waves.now))) }
{
    for i in 0..gates {
        put_first_value(text, waves, i)?;
    }
    Ok(())
}

#[tactic(auto, unfolding(crate::specs::dump::Dump::first_text))]
fn put_first_value(text: &mut Vec<u8>, waves: &Waves<Level>, i: u32) -> Result<(), Memory>
    requires gate { i < waves.now.width }
    requires few { i < 512 }
    requires some { 1 ≤ waves.now.horizon }
    ensures { OnOk result (text.new.items ≡ text.old.items ++ first_text (is_on waves.now) i) }
{
    put_value(text, i, on_at(waves, i, 0))
}

// Appends the changes after each tick but the last.
fn put_ticks(
    alloc: Global,
    text: &mut Vec<u8>,
    waves: &Waves<Level>,
    extent: Extent,
) -> Result<(), Memory>
    requires horizon { waves.now.horizon ≡ extent.horizon }
    requires gates { waves.now.width ≡ extent.gates }
    ensures { OnOk result (text.new.items
        ≡ text.old.items
        ++ each_below (extent.horizon - 1)
        (tick_text extent.tick_us (is_on waves.now) extent.gates)) }
{
    for t in 0..extent.horizon - 1 {
        put_tick(alloc, text, waves, extent, t)?;
    }
    Ok(())
}

// Appends what changes after a tick, under the time of the next.
#[tactic(auto, unfolding(crate::specs::dump::Dump::tick_text))]
fn put_tick(
    alloc: Global,
    text: &mut Vec<u8>,
    waves: &Waves<Level>,
    extent: Extent,
    t: u32,
) -> Result<(), Memory>
    requires tick { t + 1 < extent.horizon }
    requires horizon { waves.now.horizon ≡ extent.horizon }
    requires gates { waves.now.width ≡ extent.gates }
    ensures { OnOk result (text.new.items
        ≡ text.old.items ++ tick_text extent.tick_us (is_on waves.now) extent.gates t) }
{
    let mut changes = Vec::new(alloc);
    put_next(&mut changes, waves, extent.gates, t)?;
    put_timed(text, extent.tick_us, t + 1, changes.as_slice())
}

// Appends changes under their time, where there are any.
fn put_timed(text: &mut Vec<u8>, tick_us: u32, t: u32, changes: &[u8]) -> Result<(), Memory>
    requires tick { t ≤ 4000 }
    requires short { tick_us ≤ 1000000 }
    ensures { OnOk result (text.new.items
        ≡ text.old.items ++ timed_text tick_us t changes.now) }
{
    if changes.is_empty() {
        return Ok(());
    }
    put_time(text, tick_us, t)?;
    put(text, changes)
}

// Appends the changes from a tick to the next.
fn put_next(text: &mut Vec<u8>, waves: &Waves<Level>, gates: u32, t: u32) -> Result<(), Memory>
    requires few { gates ≤ 512 }
    requires short { t < 4000 }
    requires gates { waves.now.width ≡ gates }
    requires tick { t + 1 < waves.now.horizon }
    ensures { OnOk result (text.new.items
        ≡ text.old.items ++ each_below gates (next_text (is_on waves.now) t)) }
{
    for i in 0..gates {
        put_next_value(text, waves, i, t)?;
    }
    Ok(())
}

#[tactic(auto, unfolding(crate::specs::dump::Dump::next_text))]
fn put_next_value(text: &mut Vec<u8>, waves: &Waves<Level>, i: u32, t: u32) -> Result<(), Memory>
    requires gate { i < waves.now.width }
    requires few { i < 512 }
    requires short { t < 4000 }
    requires tick { t + 1 < waves.now.horizon }
    ensures { OnOk result (text.new.items ≡ text.old.items ++ next_text (is_on waves.now) t i) }
{
    let before = on_at(waves, i, t);
    let now = on_at(waves, i, t + 1);
    put_change(text, i, before, now)
}

// Appends a gate's value where it is not the one before.
fn put_change(text: &mut Vec<u8>, i: u32, before: bool, now: bool) -> Result<(), Memory>
    requires { i < 512 }
    ensures { OnOk result (text.new.items ≡ text.old.items ++ change_text i before now) }
{
    if before == now {
        return Ok(());
    }
    put_value(text, i, now)
}

// Appends a gate's value.
fn put_value(text: &mut Vec<u8>, i: u32, level: bool) -> Result<(), Memory>
    requires { i < 512 }
    ensures { OnOk result (text.new.items ≡ text.old.items ++ value_text i level) }
{
    put(text, level_word(level))?;
    put_code(text, i)?;
    put(text, b"\n")
}

// Appends the time of a tick.
fn put_time(text: &mut Vec<u8>, tick_us: u32, t: u32) -> Result<(), Memory>
    requires tick { t ≤ 4000 }
    requires short { tick_us ≤ 1000000 }
    ensures { OnOk result (text.new.items ≡ text.old.items ++ time_text tick_us t) }
{
    put(text, b"#")?;
    put_number(text, t as u64 * tick_us as u64)?;
    put(text, b"\n")
}
