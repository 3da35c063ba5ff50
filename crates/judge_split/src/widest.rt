//! The parameter that a line is split at.

ghost use Rattle.std.specs.Prelude.{◌≡◌, ◌≤◌, ◌<◌, ◌+◌, ◌-◌};
ghost use Rattle.model_line.specs.Parameters.{param_count};
ghost use Rattle.judge_split.specs.Widths.{width as width_of_param};
ghost use Rattle.judge_split.specs.Widths.{IsChoiceOf};

use model_line::Line;

/// Among the parameters that are no delays, the first one of the greatest width, if that is not 0.
pub fn widest(line: &Line) -> Option<u32>
    ensures { IsChoiceOf line.now (param_count line.now) result }
{
    let mut best = None;
    for i in 0..line.param_count() {
        best = wider(line, best, i);
    }
    best
}

// The parameter to split at, with one parameter more.
fn wider(line: &Line, best: Option<u32>, i: u32) -> Option<u32>
    requires exists { i < param_count line.now }
    requires best { IsChoiceOf line.now i best }
    ensures { IsChoiceOf line.now (i + 1) result }
{
    let own = width(line, i);
    match best {
        None => { if own > 0 { Some(i) } else { None } }
        Some(p) => {
            if own > width(line, p) {
                Some(i)
            } else {
                Some(p)
            }
        }
    }
}

#[tactic(auto, unfolding(crate::specs::Widths::width))]
fn width(line: &Line, param: u32) -> u32
    requires { param < param_count line.now }
    ensures { result ≡ width_of_param line.now param }
{
    if line.is_delay(param) {
        0
    } else {
        line.greatest(param) - line.least(param)
    }
}
