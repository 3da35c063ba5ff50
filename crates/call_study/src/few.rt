//! The few obligations that are asked about, by the names of a fault, a script and a terminal.

ghost use Rattle.std.specs.Prelude.{◌≡◌};
ghost use Rattle.std.specs.Option.{option_copied};
ghost use Rattle.call_work.specs.load.Few.{number_of_terminal as number_of};
ghost use Rattle.call_work.specs.load.Few.{script_alone as alone, scripts_named as named};
ghost use Rattle.call_work.specs.load.Few.{scripts_of_fault as of_fault};

use file_study::sweeps::Group;
use model_line::{Line, Script};
use model_names::{script_of_name, terminal_of_name};

/// The scripts of the fault of that name, or all where none is asked for.
pub fn scripts_of_fault<'a>(
    groups: &[Group],
    scripts: &'a [Script],
    fault: Option<&str>,
) -> Option<&'a [Script]>
    ensures { option_copied result
        ≡ of_fault groups.now scripts.now (option_copied fault.entry) }
{
    match fault {
        None => Some(scripts),
        Some(name) => scripts_named(groups, scripts, name.as_bytes()),
    }
}

// Those of the first fault of this name, which stand one after another, fault by fault.
fn scripts_named<'a>(groups: &[Group], scripts: &'a [Script], name: &[u8]) -> Option<&'a [Script]>
    ensures { option_copied result ≡ named groups.now scripts.now name.now }
{
    match groups {
        [] => None,
        [group, more @ ..] => {
            let count = group.swept.len().min(scripts.len());
            if group.name.bytes() == name {
                Some(&scripts[..count])
            } else {
                scripts_named(more, &scripts[count..], name)
            }
        }
    }
}

/// The script of that name alone, or all where none is asked for.
pub fn script_alone<'a>(scripts: &'a [Script], name: Option<&str>) -> Option<&'a [Script]>
    ensures { option_copied result ≡ alone scripts.now (option_copied name.entry) }
{
    match name {
        None => Some(scripts),
        Some(name) => {
            let i = script_of_name(scripts, name.as_bytes())?;
            Some(&scripts[i..i + 1])
        }
    }
}

/// The terminal of that name, or none where none is asked for; none at all where there is none of it.
pub fn number_of_terminal(line: &Line, name: Option<&str>) -> Option<Option<u32>>
    ensures { result ≡ number_of line.now (option_copied name.entry) }
{
    match name {
        None => Some(None),
        Some(name) => {
            let k = terminal_of_name(line, name.as_bytes())?;
            Some(Some(k))
        }
    }
}
