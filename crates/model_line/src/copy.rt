//! Copies of a line.

ghost use Rattle.std.specs.Prelude.{◌≤◌, ◌<◌, IfOk, IsTrue};
ghost use Rattle.model_line.specs.Parameters.{param_count, is_delay};
ghost use Rattle.model_line.specs.{WithBounds.IsWithBounds, SameLine.SameLine};

use crate::line::Line;
use base_memory::Memory;
use std::alloc::Global;

impl Line {
    /// An equal line, in memory of its own.
    pub fn copy(&self, alloc: Global) -> Result<Line, Memory>
        ensures { IfOk result (SameLine self.now) }
    {
        let terminals = Vec::from_slice(alloc, &self.terminals)?;
        let channels = Vec::from_slice(alloc, &self.channels)?;
        let params = Vec::from_slice(alloc, &self.params)?;
        Ok(Line {
            tick_us: self.tick_us,
            horizon: self.horizon,
            scheme: self.scheme,
            zone1_trip: self.zone1_trip,
            terminals,
            channels,
            params,
        })
    }

    /// A line of its own that is the same but for the interval of one parameter.
    pub fn with_bounds(
        &self,
        alloc: Global,
        param: u32,
        least: u32,
        greatest: u32,
    ) -> Result<Line, Memory>
        requires exists { param < param_count self.now }
        requires ordered { least ≤ greatest }
        requires within { greatest ≤ 4000 }
        requires delay { IsTrue (is_delay self.now param) → 1 ≤ least }
        ensures { IfOk result (λ other. IsWithBounds self.now param least greatest other) }
    {
        let mut other = self.copy(alloc)?;
        other.set_bounds(param, least, greatest);
        Ok(other)
    }
}
