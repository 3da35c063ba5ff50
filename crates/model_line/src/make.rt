//! Making a line of its terminals, channels and intervals.

ghost use Rattle.std.specs.Prelude.{◌≤◌, ◌↔◌, IsTrue, IfOk};
ghost use Rattle.model_line.specs.Making.{MakesLine, IsMadeOf};

use crate::bounds::{Bounds, are_bounds};
use crate::channels::are_channels;
use crate::line::{Channel, Line, Scheme, Terminal};
use crate::param_names::param_names;
use crate::params::params_of;
use crate::terminals::are_terminals;
use base_memory::Memory;
use std::alloc::Global;

impl Line {
    /// The line of these terminals and channels, with these intervals in the order of its
    /// parameters. `makes_line` tests what is asked of them.
    pub fn new(
        alloc: Global,
        tick_us: u32,
        horizon: u32,
        scheme: Scheme,
        zone1_trip: bool,
        terminals: Vec<Terminal>,
        channels: Vec<Channel>,
        bounds: &[Bounds],
    ) -> Result<Line, Memory>
        requires { MakesLine tick_us horizon scheme terminals.items channels.items bounds.now }
        ensures { IfOk result (IsMadeOf tick_us horizon scheme zone1_trip terminals.items
            channels.items bounds.now) }
    {
        let names = param_names(alloc, scheme, &terminals, &channels)?;
        let params = params_of(alloc, &names, bounds)?;
        Ok(Line {
            tick_us,
            horizon,
            scheme,
            zone1_trip,
            terminals,
            channels,
            params,
        })
    }
}

/// Whether a line can be made of these: the ticks in range, two or three terminals with plain names
/// of their own, weak or guarded as the scheme lets, each ordered pair of terminals with one
/// channel, and an interval for each parameter, in order, with its ends in order and at most 4,000
/// ticks and a delay of at least one.
pub fn makes_line(
    tick_us: u32,
    horizon: u32,
    scheme: Scheme,
    terminals: &[Terminal],
    channels: &[Channel],
    bounds: &[Bounds],
) -> bool
    ensures { IsTrue result
        ↔ MakesLine tick_us horizon scheme terminals.now channels.now bounds.now }
{
    if !is_up_to(tick_us, 1_000_000) || !is_up_to(horizon, 4000) {
        return false;
    }
    if !are_terminals(scheme, terminals) {
        return false;
    }
    if !are_channels(terminals.len() as u32, channels) {
        return false;
    }
    are_bounds(scheme, terminals, channels, bounds)
}

fn is_up_to(value: u32, greatest: u32) -> bool
    ensures { IsTrue result ↔ ((1 ≤ value) × (value ≤ greatest)) }
{
    1 <= value && value <= greatest
}
