//! Words of 64 lanes.

ghost use Rattle.std.specs.Prelude.{◌<◌};

/// All lanes.
pub const ALL: u64 = u64::MAX;

/// The lowest lane of some lanes.
pub fn lowest(lanes: u64) -> u32
    requires { 0 < lanes }
    ensures { result < 64 }
{
    lanes.trailing_zeros()
}

/// The lanes without the lowest.
pub fn rest(lanes: u64) -> u64
    requires { 0 < lanes }
    ensures { result < lanes }
{
    lanes & (lanes - 1)
}

/// The lane alone.
pub fn only(lane: u32) -> u64
    requires { lane < 64 }
{
    1u64 << lane
}

/// Whether a lane is one of these.
pub fn holds(lanes: u64, lane: u32) -> bool
    requires { lane < 64 }
{
    lanes >> lane & 1 == 1
}

/// All lanes, or none.
pub fn each(value: bool) -> u64 {
    if value { ALL } else { 0 }
}

/// So many of the first lanes.
pub fn first(count: u32) -> u64 {
    if count < 64 { !(ALL << count) } else { ALL }
}
