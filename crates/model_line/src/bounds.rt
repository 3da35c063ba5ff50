//! The intervals of a line's parameters.

ghost use Rattle.std.specs.Prelude.{◌≡◌, ◌≤◌, ◌<◌, ◌↔◌, length, IsTrue, get_or};
ghost use Rattle.model_line.specs.Intervals.{IsInterval, AreIntervals, LeastDelaysFromOne};
ghost use Rattle.model_line.specs.Making.{AreBounds, least_ends, greatest_ends};
ghost use Rattle.model_line.specs.SetBounds.{WithBounds, SameButParams};
ghost use Rattle.model_line.specs.{Settings.line_settings, Parameters.is_delay};

use crate::line::{Channel, Line, Param, Scheme, Terminal};
use crate::setting_places::{delay_index, param_count};

/// The interval of a parameter: its least and greatest number of ticks.
#[derive(Clone, Copy)]
pub struct Bounds {
    pub least: u32,
    pub greatest: u32,
}

impl Line {
    /// Replaces the interval of one parameter. All else stays.
    pub fn set_bounds(&mut self, param: u32, least: u32, greatest: u32)
        requires exists { param < length self.old.params.items }
        requires ordered { least ≤ greatest }
        requires within { greatest ≤ 4000 }
        requires delay { IsTrue (is_delay self.old param) → 1 ≤ least }
        ensures params { WithBounds self.old.params.items self.new.params.items
            param least greatest }
        ensures rest { SameButParams self.old self.new }
    {
        let old = self.params[param as usize];
        self.params[param as usize] = Param {
            name: old.name,
            least,
            greatest,
        };
    }
}

/// Whether these are intervals for the parameters of a line of these terminals and channels.
pub fn are_bounds(
    scheme: Scheme,
    terminals: &[Terminal],
    channels: &[Channel],
    bounds: &[Bounds],
) -> bool
    requires terminals { length terminals.now ≤ 3 }
    requires channels { length channels.now ≤ 6 }
    ensures { IsTrue result ↔ AreBounds scheme terminals.now channels.now bounds.now }
{
    if bounds.len() != param_count(scheme, terminals, channels) || !are_intervals(bounds) {
        return false;
    }
    delays_from_one(scheme, terminals, channels, bounds)
}

// Whether each delay of a channel is one tick at least.
fn delays_from_one(
    scheme: Scheme,
    terminals: &[Terminal],
    channels: &[Channel],
    bounds: &[Bounds],
) -> bool
    requires terminals { length terminals.now ≤ 3 }
    requires channels { length channels.now ≤ 6 }
    requires one_each { length bounds.now
        ≡ length (line_settings scheme terminals.now channels.now) }
    ensures { IsTrue result
        ↔ LeastDelaysFromOne scheme terminals.now channels.now (least_ends bounds.now) }
{
    for c in 0..channels.len() {
        if bounds[delay_index(scheme, terminals, channels, c)].least < 1 {
            return false;
        }
    }
    true
}

fn are_intervals(bounds: &[Bounds]) -> bool
    ensures { IsTrue result ↔ AreIntervals (least_ends bounds.now) (greatest_ends bounds.now) }
{
    for i in 0..bounds.len() {
        if !is_interval(bounds, i) {
            return false;
        }
    }
    true
}

fn is_interval(bounds: &[Bounds], i: usize) -> bool
    requires { i < length bounds.now }
    ensures { IsTrue result ↔ IsInterval (least_ends bounds.now) (greatest_ends bounds.now) i }
{
    bounds[i].least <= bounds[i].greatest && bounds[i].greatest <= 4000
}
