//! What was read of a line so far.

ghost use Rattle.std.specs.Prelude.{◌≤◌};

use model_line::{Bounds, Channel, Scheme, Terminal};

/// A line while its file is read: the intervals are those of its parameters, in order.
#[derive(Drop)]
pub struct Draft {
    pub tick_us: u32,
    pub horizon: u32,
    pub scheme: Scheme,
    pub zone1_trip: bool,
    pub terminals: Vec<Terminal>,
    pub channels: Vec<Channel>,
    pub intervals: Vec<Bounds>,
    pub ghost tick_in_range: { (1 ≤ tick_us) × (tick_us ≤ 1000000) },
    pub ghost horizon_in_range: { (1 ≤ horizon) × (horizon ≤ 4000) },
}
