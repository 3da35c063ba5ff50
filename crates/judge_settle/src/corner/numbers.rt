//! Each parameter at its end.

ghost use Rattle.std.specs.Prelude.{◌≡◌, ◌<◌, map, IfOk};
ghost use Rattle.std.specs.List.{range_with_len};
ghost use Rattle.model_line.specs.Parameters.{param_count};
ghost use Rattle.judge_settle.specs.corner.Named.{rail_named};
ghost use Rattle.judge_settle.specs.corner.Corner.{settings_in_order, worst_number as worst_number_of};

use crate::corner::rail::{End, Rail};
use crate::corner::scheme::end_of;
use crate::corner::settings::settings_of;
use model_line::laws::parameters_are_numbered;
use model_line::{Line, Memory, Setting};
use run_signal::Tick;
use std::alloc::Global;

/// The number of each parameter at the end at which it is asked for.
pub fn worst_numbers(alloc: Global, line: &Line, rail: Rail) -> Result<Vec<Tick>, Memory>
    ensures { IfOk result (λ numbers. numbers.items
        ≡ map (worst_number_of line.now (rail_named rail))
        (range_with_len 0 (param_count line.now))) }
{
    parameters_are_numbered();
    let settings = settings_of(alloc, line)?;
    let mut numbers = Vec::new(alloc);
    for param in 0..line.param_count() {
        numbers.push(worst_number(line, rail, &settings, param))?;
    }
    Ok(numbers)
}

/// The number of a parameter at the end at which it is asked for.
fn worst_number(line: &Line, rail: Rail, settings: &[Setting], param: u32) -> Tick
    requires param { param < param_count line.now }
    requires settings { settings.now ≡ settings_in_order line.now }
    ensures { result ≡ worst_number_of line.now (rail_named rail) param }
{
    parameters_are_numbered();
    match end_of(rail, settings[param as usize]) {
        End::Least => Tick::new(line.least(param)),
        End::Greatest => Tick::new(line.greatest(param)),
    }
}
