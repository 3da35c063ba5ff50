//! A line that is played on.

ghost use Rattle.std.specs.Prelude.{◌≡◌, ◌≤◌, IfOk, length};
ghost use Rattle.model_fine.specs.Onward.{IsPlayedOn};
ghost use Rattle.file_borders.specs.Studies.{played_ticks as ticks_of};

use file_borders::played_ticks;
use model_line::{Line, Memory};
use run_signal::Within;
use std::alloc::Global;

/// The same line, played on by as many ticks as the times of a fault may move.
pub(crate) fn played_on(alloc: Global, line: &Line, part: &[Within]) -> Result<Line, Memory>
    requires few { length part.now ≤ 16 }
    requires room { ticks_of line.now part.now ≤ 4000 }
    ensures on { IfOk result (IsPlayedOn line.now) }
    ensures long { IfOk result (λ long. long.horizon ≡ ticks_of line.now part.now) }
{
    let own = line.copy(alloc)?;
    Ok(Line {
        tick_us: own.tick_us,
        horizon: played_ticks(line, part),
        scheme: own.scheme,
        zone1_trip: own.zone1_trip,
        terminals: own.terminals,
        channels: own.channels,
        params: own.params,
    })
}
