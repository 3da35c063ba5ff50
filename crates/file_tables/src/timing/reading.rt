//! The timings that the records so far say.

ghost use Rattle.std.specs.Prelude.{◌≡◌, IsTrue, IfSome, IfOk, map, option_map};
ghost use Rattle.base_memory.specs.Gives.{Gives};
ghost use Rattle.model_line.specs.{Intervals.leasts, PlainNames.is_plain_name};
ghost use Rattle.model_timing.specs.NamedValues.{values_of};
ghost use Rattle.file_tables.specs.timing.SoFar.{so_far_of, no_timings, all_timings, open_of};
ghost use Rattle.file_tables.specs.timing.SoFar.{opened, closed as closed_of, IsFull};
ghost use Rattle.file_tables.specs.{timing.Checks.check_timing, timing.Opened.opening_of};

use crate::timing::check::is_any;
use crate::timing::fault::TimingFault;
use crate::timing::steps::Steps;
use base_memory::{Memory, Stopped};
use base_records::is;
use model_line::{Line, Name};
use model_timing::{NamedTiming, Timing};
use run_signal::Tick;
use std::alloc::Global;

/// The latest timing, and the parameters that its rows have set.
#[derive(Drop)]
pub struct Open {
    pub name: Name,
    pub values: Vec<Tick>,
    pub steps: Steps,
    pub given: Vec<u32>,
}

/// The timings that are finished, and the latest, to which a row adds.
#[derive(Drop)]
pub struct Reading {
    pub done: Vec<NamedTiming>,
    pub latest: Option<Open>,
}

/// Before the first row.
pub fn nothing_read(alloc: Global) -> Reading
    ensures { so_far_of result ≡ no_timings }
{
    Reading {
        done: Vec::new(alloc),
        latest: None,
    }
}

/// All timings, in file order.
pub fn finished(reading: Reading) -> Result<Vec<NamedTiming>, Stopped<TimingFault>>
    ensures { Gives (λ v. map values_of v.items) result (Ok (all_timings (so_far_of reading))) }
{
    let Reading { mut done, latest } = reading;
    if let Some(timing) = latest {
        done.push(closed(timing)?)?;
    }
    Ok(done)
}

// A timing with its steps in order.
fn closed(timing: Open) -> Result<NamedTiming, Memory>
    ensures { IfOk result (λ t. values_of t ≡ closed_of (open_of timing)) }
{
    let Open {
        name,
        values,
        steps,
        given: _,
    } = timing;
    let steps = steps.in_order(*values.allocator())?;
    Ok(NamedTiming {
        name,
        timing: Timing::with_steps(values, steps),
    })
}

/// The timings before the row's, and the row's own.
#[derive(Drop)]
pub struct Opened {
    pub done: Vec<NamedTiming>,
    pub timing: Open,
}

/// The timing of a row of this name: the latest, or one that it opens.
pub fn opened_by(
    alloc: Global,
    line: &Line,
    reading: Reading,
    n: u32,
    name: &[u8],
) -> Result<Opened, Stopped<TimingFault>>
    requires plain { IsTrue (is_plain_name name.now) }
    requires full { IfSome reading.latest (λ t. IsFull line.now (open_of t)) }
    ensures said { Gives opening_of result
        (check_timing line.now (map values_of reading.done.items) n name.now
        (option_map open_of reading.latest)) }
    ensures full { IfOk result (λ x. IsFull line.now (open_of x.timing)) }
{
    let Reading { mut done, latest } = reading;
    let Some(timing) = latest else {
        let timing = new_timing(alloc, line, Name::plain(name))?;
        return Ok(Opened { done, timing });
    };
    if is(timing.name.bytes(), name) {
        return Ok(Opened { done, timing });
    }
    if is_any(done.as_slice(), name) {
        return Err(Stopped::Fault(TimingFault::Order(n)));
    }
    if done.len() >= 15 {
        return Err(Stopped::Fault(TimingFault::TooMany));
    }
    done.push(closed(timing)?)?;
    let timing = new_timing(alloc, line, Name::plain(name))?;
    Ok(Opened { done, timing })
}

/// A timing that no row has set yet.
pub fn new_timing(alloc: Global, line: &Line, name: Name) -> Result<Open, Memory>
    ensures said { IfOk result (λ t. open_of t ≡ opened line.now name) }
    ensures full { IfOk result (λ t. IsFull line.now (open_of t)) }
{
    Ok(Open {
        name,
        values: least_values(alloc, line)?,
        steps: Steps::new(alloc),
        given: Vec::new(alloc),
    })
}

fn least_values(alloc: Global, line: &Line) -> Result<Vec<Tick>, Memory>
    ensures { IfOk result (λ v. v.items ≡ leasts line.now.params.items) }
{
    let mut values = Vec::new(alloc);
    for param in &line.params {
        values.push(Tick::new(param.least))?;
    }
    Ok(values)
}
