//! Where the declared point lies.

ghost use Rattle.std.specs.Prelude.{◌≡◌, ◌≤◌, ◌<◌, ◌==◌, IfSome, true};
ghost use Rattle.std.specs.List.{list_all};
ghost use Rattle.model_line.specs.Parameters.{declared_ends};
ghost use Rattle.judge_margins.specs.{map.Axes.IsAxis, map.Axes.IsSecond, map.Axes.count_along, map.Axes.rows_of};
ghost use Rattle.judge_margins.specs.map.Placed.{AreOfLine};
ghost use Rattle.draw_map.specs.Beyond.{least_if as least_if_of, least_of};
ghost use Rattle.draw_map.specs.Beyond.{number_by as number_by_of, number_of as number_for};
ghost use Rattle.draw_map.specs.Beyond.{row_of as row_for};

use judge_margins::map::Axis;
use model_line::Line;

/// The least end that is declared of each of these parameters, if it is one.
pub fn least(line: &Line, params: &[u32]) -> Option<u32>
    requires { AreOfLine line.now params.now }
    ensures is { result ≡ least_of line.now params.now }
    ensures few { IfSome result (λ least. least ≤ 4000) }
{
    match params {
        [] => None,
        [param, rest @ ..] => {
            let least = line.least(*param);
            least_if(line, rest, least)
        }
    }
}

// This number, if it is the least end of each of these parameters.
fn least_if(line: &Line, params: &[u32], least: u32) -> Option<u32>
    requires exist { AreOfLine line.now params.now }
    requires least { least ≤ 4000 }
    ensures is { result ≡ least_if_of line.now params.now least }
    ensures few { IfSome result (λ least. least ≤ 4000) }
{
    if all_at(line, params, least) {
        Some(least)
    } else {
        None
    }
}

// Whether this is the least end of each.
fn all_at(line: &Line, params: &[u32], least: u32) -> bool
    requires { AreOfLine line.now params.now }
    ensures { result ≡ list_all (λ p. (declared_ends line.now p).least == least) params.now }
{
    match params {
        [] => true,
        [param, rest @ ..] => line.least(*param) == least && all_at(line, rest, least),
    }
}

/// The number of an axis at which its parameters are declared, if there is one.
pub fn number(line: &Line, axis: &Axis) -> Option<u32>
    requires { IsAxis line.now axis.now }
    ensures is { result ≡ number_for line.now axis.now }
    ensures within { IfSome result (λ n. n < count_along axis.now) }
{
    number_by(line, axis, least(line, axis.params.as_slice()))
}

fn number_by(line: &Line, axis: &Axis, least: Option<u32>) -> Option<u32>
    requires { IsAxis line.now axis.now }
    ensures is { result ≡ number_by_of axis.now least }
    ensures within { IfSome result (λ n. n < count_along axis.now) }
{
    let _line = line;
    let least = least?;
    if axis.first <= least
        && least <= axis.least(axis.count() - 1)
        && (least - axis.first) % axis.step == 0
    {
        Some((least - axis.first) / axis.step)
    } else {
        None
    }
}

/// The same of a second axis; without one it is in the one row.
pub fn row(line: &Line, axis: &Option<Axis>) -> Option<u32>
    requires { IsSecond line.now axis.now }
    ensures is { result ≡ row_for line.now axis.now }
    ensures within { IfSome result (λ n. n < rows_of axis.now) }
{
    match axis {
        Some(axis) => number(line, axis),
        None => Some(0),
    }
}
