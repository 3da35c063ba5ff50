//! Reading a configuration.

ghost use Rattle.std.specs.Prelude.{◌≡◌, ◌<◌, ◌-◌, ◌^◌, IfOk, length};
ghost use Rattle.base_memory.specs.Gives.{Gives};
ghost use Rattle.file_comtrade.specs.Config.{body_of, config_in, config_of, line_of, or_absent, tail_at};
ghost use Rattle.file_comtrade.specs.Config.{values_of};
ghost use Rattle.file_comtrade.specs.Views.{texts, counts_of_channels, tail_of};

use crate::blank::blank_from;
use crate::channel_lines::{analogs, digitals};
use crate::config::{Config, DateOrder, Manner, Sampling};
use crate::config_lines::{Channels, counts_in, line_at, natural_in, order_of, revision_in};
use crate::ending::{Ending, end_at};
use crate::fault::ConfigFault;
use crate::rate_lines::{rate_lines, sampling_at};
use crate::text::{lines, unmarked};
use base_memory::Stopped;
use std::alloc::Global;

/// What a configuration says, or its first fault. Its dates have the order that its revision gives,
/// unless one is given.
pub fn read_config(
    alloc: Global,
    text: &[u8],
    dates: Option<DateOrder>,
) -> Result<Config<'_>, Stopped<ConfigFault>>
    ensures said { Gives values_of result (config_of dates text.now) }
    ensures few { IfOk result (λ c. length c.digital.items < 2 ^ 32) }
    ensures early { IfOk result (λ c. c.first < 2 ^ 80) }
    ensures some { IfOk result (λ c. 0 < c.sampling.samples) }
{
    let lines = lines(alloc, unmarked(text))?;
    match config_in(alloc, lines.as_slice(), dates) {
        Ok(config) => Ok(config),
        Err(Stopped::Fault(why)) => Err(Stopped::Fault(or_absent(lines.as_slice(), why))),
        Err(Stopped::Memory) => Err(Stopped::Memory),
    }
}

// The line of a fault.
fn line_of(why: ConfigFault) -> usize
    ensures { result ≡ line_of why }
{
    match why {
        ConfigFault::BadRevision => 1,
        ConfigFault::Counts => 2,
        ConfigFault::Absent(n)
        | ConfigFault::Analog(n)
        | ConfigFault::Digital(n)
        | ConfigFault::Rates(n)
        | ConfigFault::BadRate(n)
        | ConfigFault::Moment(n)
        | ConfigFault::Date(n)
        | ConfigFault::OtherOrder { line: n, order: _ }
        | ConfigFault::Time(n)
        | ConfigFault::BadForm(n)
        | ConfigFault::Factor(n) => n,
    }
}

// The fault, or that the text ends before its line.
fn or_absent(lines: &[&[u8]], why: ConfigFault) -> ConfigFault
    ensures { result ≡ or_absent (texts lines.now) why }
{
    let n = line_of(why);
    if blank_from(lines, n.saturating_sub(1)) {
        ConfigFault::Absent(n)
    } else {
        why
    }
}

#[tactic(auto, unfolding(crate::specs::Config::config_in))]
fn config_in<'a>(
    alloc: Global,
    lines: &[&'a [u8]],
    dates: Option<DateOrder>,
) -> Result<Config<'a>, Stopped<ConfigFault>>
    ensures said { Gives values_of result (config_in dates (texts lines.now)) }
    ensures few { IfOk result (λ c. length c.digital.items < 2 ^ 32) }
    ensures early { IfOk result (λ c. c.first < 2 ^ 80) }
    ensures some { IfOk result (λ c. 0 < c.sampling.samples) }
{
    let head = line_at(alloc, lines, 0)?;
    let Some(revision) = revision_in(head.as_slice()) else {
        return Err(Stopped::Fault(ConfigFault::BadRevision));
    };
    let second = line_at(alloc, lines, 1)?;
    let Some(channels) = counts_in(second.as_slice()) else {
        return Err(Stopped::Fault(ConfigFault::Counts));
    };
    let order = order_of(dates, revision);
    body(alloc, Manner { revision, order }, channels, lines)
}

#[tactic(auto, unfolding(crate::specs::Config::body_of))]
fn body<'a>(
    alloc: Global,
    manner: Manner,
    channels: Channels,
    lines: &[&'a [u8]],
) -> Result<Config<'a>, Stopped<ConfigFault>>
    ensures said { Gives values_of result
        (body_of manner (counts_of_channels channels) (texts lines.now)) }
    ensures few { IfOk result (λ c. length c.digital.items < 2 ^ 32) }
    ensures early { IfOk result (λ c. c.first < 2 ^ 80) }
    ensures some { IfOk result (λ c. 0 < c.sampling.samples) }
{
    let analog = channels.analog as usize;
    analogs(alloc, lines, 2, channels.analog)?;
    let digital = digitals(alloc, lines, 2 + analog, channels.digital)?;
    let at = 2 + analog + channels.digital as usize;
    let tail = tail_at(alloc, manner, lines, at)?;
    Ok(Config {
        analog: channels.analog,
        digital,
        sampling: tail.sampling,
        first: tail.ending.first,
        form: tail.ending.form,
        unit: tail.ending.unit,
        factor: tail.ending.factor,
    })
}

/// What the lines behind the channels say.
#[derive(Drop)]
struct Tail {
    sampling: Sampling,
    ending: Ending,
}

#[tactic(auto, unfolding(crate::specs::Config::tail_at))]
fn tail_at(
    alloc: Global,
    manner: Manner,
    lines: &[&[u8]],
    at: usize,
) -> Result<Tail, Stopped<ConfigFault>>
    requires { at < 2 ^ 34 - 2 }
    ensures said { Gives tail_of result (tail_at manner (texts lines.now) at) }
    ensures early { IfOk result (λ t. t.ending.first < 2 ^ 80) }
    ensures some { IfOk result (λ t. 0 < t.sampling.samples) }
{
    line_at(alloc, lines, at)?;
    let row = line_at(alloc, lines, at + 1)?;
    let Some(count) = natural_in(row.as_slice()) else {
        return Err(Stopped::Fault(ConfigFault::Rates(at + 2)));
    };
    if count > 64 {
        return Err(Stopped::Fault(ConfigFault::Rates(at + 2)));
    }
    let sampling = sampling_at(alloc, lines, at + 2, count)?;
    let ending = end_at(alloc, manner, lines, at + 2 + rate_lines(count) as usize)?;
    Ok(Tail { sampling, ending })
}
