//! A warning where a test holds.

ghost use Rattle.std.specs.Prelude.{◌≡◌, ◌++◌, OnOk};
ghost use Rattle.call_lint.specs.warnings.Listed.{told_if};

use crate::warnings::warning::Warning;
use model_line::Memory;

/// Adds the warning where the test holds.
pub fn push_if(list: &mut Vec<Warning>, test: bool, warning: Warning) -> Result<(), Memory>
    ensures { OnOk result (list.new.items ≡ list.old.items ++ told_if test warning) }
{
    if test {
        list.push(warning)?;
    }
    Ok(())
}
