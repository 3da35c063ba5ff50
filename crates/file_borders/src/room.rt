//! For how long a line is played on.

ghost use Rattle.std.specs.Prelude.{◌≡◌, ◌≤◌, ◌*◌, length};
ghost use Rattle.file_borders.specs.Studies.{played_ticks as ticks_of, widths_in};

use model_line::Line;
use run_signal::Within;

/// The horizon of a line that is played on by as many ticks as the times of a fault, at most 16 of them, may move.
pub fn played_ticks(line: &Line, part: &[Within]) -> u32
    requires few { length part.now ≤ 16 }
    ensures { result ≡ ticks_of line.now part.now }
{
    line.horizon + widths_of(part)
}

// By how many ticks times may move, all together.
fn widths_of(part: &[Within]) -> u32
    requires few { length part.now ≤ 16 }
    ensures sum { result ≡ widths_in part.now }
    ensures low { result ≤ 4000 * length part.now }
{
    match part {
        [] => 0,
        [own, rest @ ..] => (own.greatest() - own.least()) + widths_of(rest),
    }
}
