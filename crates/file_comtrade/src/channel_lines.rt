//! The lines of the channels.

ghost use Rattle.std.specs.Prelude.{◌≡◌, ◌<◌, ◌+◌, ◌^◌, IfOk, [], length};
ghost use Rattle.base_memory.specs.Gives.{Gives};
ghost use Rattle.file_comtrade.specs.Config.{analog_after, digital_after};
ghost use Rattle.file_comtrade.specs.{Steps.steps, Views.texts};

use crate::config_lines::{id_in, line_at};
use crate::fault::ConfigFault;
use base_memory::Stopped;
use std::alloc::Global;

/// The lines of the analog channels, from this index on.
pub fn analogs(
    alloc: Global,
    lines: &[&[u8]],
    at: usize,
    count: u32,
) -> Result<(), Stopped<ConfigFault>>
    requires { at < 2 ^ 34 }
    ensures { Gives (λ u. u) result (steps (analog_after (texts lines.now) at) tt count) }
{
    for k in 0..count {
        analog_after(alloc, lines, at, k)?;
    }
    Ok(())
}

#[tactic(auto, unfolding(crate::specs::Config::analog_after))]
fn analog_after(
    alloc: Global,
    lines: &[&[u8]],
    at: usize,
    k: u32,
) -> Result<(), Stopped<ConfigFault>>
    requires { at < 2 ^ 34 }
    ensures { Gives (λ u. u) result (analog_after (texts lines.now) at tt k) }
{
    let fields = line_at(alloc, lines, at + k as usize)?;
    if 10 <= fields.len() {
        Ok(())
    } else {
        Err(Stopped::Fault(ConfigFault::Analog(at + k as usize + 1)))
    }
}

/// The ids of the digital channels, in the lines from this index on.
pub fn digitals<'a>(
    alloc: Global,
    lines: &[&'a [u8]],
    at: usize,
    count: u32,
) -> Result<Vec<&'a [u8]>, Stopped<ConfigFault>>
    requires { at < 2 ^ 34 }
    ensures said { Gives (λ v. texts v.items) result
        (steps (digital_after (texts lines.now) at) [] count) }
    ensures many { IfOk result (λ v. length v.items ≡ count) }
{
    let mut ids = Vec::new(alloc);
    for k in 0..count {
        ids = digital_after(alloc, lines, at, ids, k)?;
    }
    Ok(ids)
}

#[tactic(auto, unfolding(crate::specs::Config::digital_after))]
fn digital_after<'a>(
    alloc: Global,
    lines: &[&'a [u8]],
    at: usize,
    ids: Vec<&'a [u8]>,
    k: u32,
) -> Result<Vec<&'a [u8]>, Stopped<ConfigFault>>
    requires { at < 2 ^ 34 }
    ensures said { Gives (λ v. texts v.items) result
        (digital_after (texts lines.now) at (texts ids.entry.items) k) }
    ensures more { IfOk result (λ v. length v.items ≡ length ids.entry.items + 1) }
{
    let mut ids = ids;
    let fields = line_at(alloc, lines, at + k as usize)?;
    let Some(id) = id_in(fields.as_slice()) else {
        return Err(Stopped::Fault(ConfigFault::Digital(at + k as usize + 1)));
    };
    ids.push(id)?;
    Ok(ids)
}
