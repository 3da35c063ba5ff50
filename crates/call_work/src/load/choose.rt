//! Scripts and timings by their names.

ghost use Rattle.std.specs.Prelude.{◌≡◌, ◌<◌, length, IfSome, Some};
ghost use Rattle.std.specs.Option.{option_copied};
ghost use Rattle.call_work.specs.load.Chosen.{chosen_script, name_of_timing, place_chosen};

use model_line::Script;
use model_names::script_of_name;
use model_timing::NamedTiming;

/// The place of the script of that name, or of the first where none is asked for.
pub fn choose_script(scripts: &[Script], name: Option<&str>) -> Option<usize>
    ensures is { result ≡ chosen_script scripts.now (option_copied name.entry) }
    ensures exists { IfSome result (λ i. i < length scripts.now) }
{
    match name {
        None if scripts.is_empty() => None,
        None => Some(0),
        Some(name) => script_of_name(scripts, name.as_bytes()),
    }
}

/// The place of the timing of that name, or of the first where none is asked for.
pub fn choose_timing(timings: &[NamedTiming], name: Option<&str>) -> Option<usize>
    ensures is { result
        ≡ place_chosen name_of_timing timings.now (option_copied name.entry) }
    ensures exists { IfSome result (λ i. i < length timings.now) }
{
    match name {
        None if timings.is_empty() => None,
        None => Some(0),
        Some(name) => timing_named(timings, name.as_bytes()),
    }
}

fn timing_named(timings: &[NamedTiming], name: &[u8]) -> Option<usize>
    ensures is { result ≡ place_chosen name_of_timing timings.now (Some name.now) }
    ensures exists { IfSome result (λ i. i < length timings.now) }
{
    timings
        .iter()
        .position(|timing| timing.name.bytes() == name)
}
