//! The line of the bench.

ghost use Rattle.std.specs.Prelude.{◌≡◌, ◌∷◌, ◌<◌, ◌≤◌, [], length, IfOk};
ghost use Rattle.model_line.specs.{declared.line.Scheme.TheVariants.Pott, Making.MakesLine};
ghost use Rattle.call_pilot.specs.commands.BenchLine.{IsBenchLine, bench_terminals, bench_channels};
ghost use Rattle.call_pilot.specs.commands.BenchLine.{bench_bounds};
ghost use Rattle.call_pilot.specs.commands.BenchLine.{terminal_named, terminal_bounds, delay_bounds};

use model_line::{Bounds, Channel, Line, Memory, Name, Scheme, Terminal};
use std::alloc::Global;

/// A permissive overreaching line of three terminals: 1,000 ticks of 250 microseconds.
pub fn bench_line(alloc: Global) -> Result<Line, Memory>
    ensures { IfOk result (λ line. IsBenchLine line) }
{
    the_bench_line_can_be_made();
    let terminals = terminals(alloc)?;
    let channels = channels(alloc)?;
    let bounds = bounds(alloc)?;
    Line::new(
        alloc,
        250,
        1000,
        Scheme::Pott,
        false,
        terminals,
        channels,
        bounds.as_slice(),
    )
}

// The terminals, channels and intervals are those of a line.
fn the_bench_line_can_be_made()
    ensures { MakesLine 250 1000 Pott bench_terminals bench_channels bench_bounds }
{}

// A, B and C.
fn terminals(alloc: Global) -> Result<Vec<Terminal>, Memory>
    ensures { IfOk result (λ terminals. terminals.items ≡ bench_terminals) }
{
    let terminals = vec![in alloc; terminal(b"A"), terminal(b"B"), terminal(b"C")]?;
    Ok(terminals)
}

// A terminal with neither flag.
fn terminal(name: &[u8]) -> Terminal
    requires some { 0 < length name.now }
    requires few { length name.now ≤ 64 }
    ensures { result ≡ terminal_named name.now }
{
    let name = Name::from_bytes(name).unwrap();
    Terminal {
        name,
        weak: false,
        guard: false,
    }
}

// One for each ordered pair.
fn channels(alloc: Global) -> Result<Vec<Channel>, Memory>
    ensures { IfOk result (λ channels. channels.items ≡ bench_channels) }
{
    let channels = vec![in alloc;
        Channel { from: 0, to: 1 },
        Channel { from: 0, to: 2 },
        Channel { from: 1, to: 0 },
        Channel { from: 1, to: 2 },
        Channel { from: 2, to: 0 },
        Channel { from: 2, to: 1 },
    ]?;
    Ok(channels)
}

// Pickup and dropout of z1, z2, rv and uv.
const TERMINAL_BOUNDS: [Bounds; 8] = [
    Bounds {
        least: 0,
        greatest: 0,
    },
    Bounds {
        least: 0,
        greatest: 0,
    },
    Bounds {
        least: 8,
        greatest: 16,
    },
    Bounds {
        least: 4,
        greatest: 8,
    },
    Bounds {
        least: 4,
        greatest: 8,
    },
    Bounds {
        least: 4,
        greatest: 8,
    },
    Bounds {
        least: 0,
        greatest: 0,
    },
    Bounds {
        least: 0,
        greatest: 0,
    },
];

// The delay of a channel.
const DELAY_BOUNDS: Bounds = Bounds {
    least: 8,
    greatest: 24,
};

// The intervals of each terminal and then of each channel.
fn bounds(alloc: Global) -> Result<Vec<Bounds>, Memory>
    ensures { IfOk result (λ bounds. bounds.items ≡ bench_bounds) }
{
    let mut bounds = Vec::new(alloc);
    bounds.extend_from_slice(&TERMINAL_BOUNDS)?;
    bounds.extend_from_slice(&TERMINAL_BOUNDS)?;
    bounds.extend_from_slice(&TERMINAL_BOUNDS)?;
    bounds.extend_from_slice(&[DELAY_BOUNDS; 6])?;
    Ok(bounds)
}
