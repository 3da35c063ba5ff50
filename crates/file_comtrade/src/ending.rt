//! The lines behind the rates.

ghost use Rattle.std.specs.Prelude.{◌<◌, ◌^◌, IfOk};
ghost use Rattle.base_memory.specs.Gives.{Gives};
ghost use Rattle.file_comtrade.specs.Config.{factor_later, factor_at, end_at};
ghost use Rattle.file_comtrade.specs.{Views.texts, Views.end_of};

use crate::config::{Form, Manner, Revision, StampUnit};
use crate::config_lines::{factor_in, form_in, line_at, moment_in, unit_in};
use crate::fault::ConfigFault;
use crate::moment_fault::moment_fault;
use base_memory::Stopped;
use std::alloc::Global;

/// What the last lines say.
#[derive(Clone, Copy)]
pub struct Ending {
    pub first: u128,
    pub form: Form,
    pub unit: StampUnit,
    pub factor: u64,
}

#[tactic(auto, unfolding(crate::specs::Config::end_at))]
pub fn end_at(
    alloc: Global,
    manner: Manner,
    lines: &[&[u8]],
    at: usize,
) -> Result<Ending, Stopped<ConfigFault>>
    requires { at < 2 ^ 35 }
    ensures said { Gives end_of result (end_at manner (texts lines.now) at) }
    ensures early { IfOk result (λ e. e.first < 2 ^ 80) }
{
    let date = line_at(alloc, lines, at)?;
    let Some(first) = moment_in(manner.order, date.as_slice()) else {
        let why = moment_fault(manner.order, at + 1, date.as_slice());
        return Err(Stopped::Fault(why));
    };
    line_at(alloc, lines, at + 1)?;
    let word = line_at(alloc, lines, at + 2)?;
    let Some(form) = form_in(alloc, word.as_slice())? else {
        return Err(Stopped::Fault(ConfigFault::BadForm(at + 3)));
    };
    let factor = factor_at(alloc, manner.revision, lines, at + 3)?;
    Ok(Ending {
        first,
        form,
        unit: unit_in(manner.revision, date.as_slice()),
        factor,
    })
}

fn factor_at(
    alloc: Global,
    revision: Revision,
    lines: &[&[u8]],
    at: usize,
) -> Result<u64, Stopped<ConfigFault>>
    requires { at < 2 ^ 36 }
    ensures { Gives (λ n. n) result (factor_at revision (texts lines.now) at) }
{
    match revision {
        Revision::Of1991 => Ok(1_000_000_000),
        Revision::Of1999 | Revision::Of2013 => factor_later(alloc, lines, at),
    }
}

#[tactic(auto, unfolding(crate::specs::Config::factor_later))]
fn factor_later(alloc: Global, lines: &[&[u8]], at: usize) -> Result<u64, Stopped<ConfigFault>>
    requires { at < 2 ^ 36 }
    ensures { Gives (λ n. n) result (factor_later (texts lines.now) at) }
{
    let fields = line_at(alloc, lines, at)?;
    match factor_in(fields.as_slice()) {
        Some(factor) => Ok(factor),
        None => Err(Stopped::Fault(ConfigFault::Factor(at + 1))),
    }
}
