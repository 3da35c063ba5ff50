//! The line of a margin.

ghost use Rattle.std.specs.Prelude.{◌≡◌, ◌++◌, ◌<◌, length, OnOk, IfOk, IfSome, decimal};
ghost use Rattle.model_line.specs.Parameters.{terminal_count, param_count};
ghost use Rattle.judge_report.specs.MarginText.{greatest_words, lost_words, margin_line};

use crate::upper_end::{Lost, UpperEnd};
use itoa::Buffer;
use model_line::{Line, Memory, Script, name_of_parameter, name_of_script, name_of_terminal};
use std::alloc::Global;

/// The line of a parameter's margin: `margin PARAMETER V declared G` with `lost SCRIPT TERMINAL` or
/// `all`; V is `none` where there is no margin.
pub fn margin_text(
    alloc: Global,
    line: &Line,
    scripts: &[Script],
    param: u32,
    margin: &UpperEnd,
) -> Result<Vec<u8>, Memory>
    requires exists { param < param_count line.now }
    requires script { IfSome margin.now.lost (λ lost. lost.script < length scripts.now) }
    requires terminal { IfSome margin.now.lost (λ lost. lost.terminal < terminal_count line.now) }
    ensures { IfOk result (λ text. text.items ≡ margin_line line.now scripts.now param margin.now) }
{
    let mut text = Vec::from_slice(alloc, b"margin ")?;
    text.extend_from_slice(name_of_parameter(line, param))?;
    text.extend_from_slice(b" ")?;
    push_greatest(&mut text, margin.greatest)?;
    text.extend_from_slice(b" declared ")?;
    push_number(&mut text, line.greatest(param))?;
    push_lost(&mut text, line, scripts, margin.lost)?;
    text.extend_from_slice(b"\n")?;
    Ok(text)
}

// Appends the margin, or `none`.
fn push_greatest(text: &mut Vec<u8>, greatest: Option<u32>) -> Result<(), Memory>
    ensures { OnOk result (text.new.items ≡ text.old.items ++ greatest_words greatest) }
{
    match greatest {
        Some(greatest) => push_number(text, greatest),
        None => {
            text.extend_from_slice(b"none")?;
            Ok(())
        }
    }
}

fn push_number(text: &mut Vec<u8>, number: u32) -> Result<(), Memory>
    ensures { OnOk result (text.new.items ≡ text.old.items ++ decimal number) }
{
    let mut digits = Buffer::new();
    text.extend_from_slice(digits.format(number).as_bytes())?;
    Ok(())
}

// Appends the obligation that is lost, or `all`.
fn push_lost(
    text: &mut Vec<u8>,
    line: &Line,
    scripts: &[Script],
    lost: Option<Lost>,
) -> Result<(), Memory>
    requires script { IfSome lost (λ l. l.script < length scripts.now) }
    requires terminal { IfSome lost (λ l. l.terminal < terminal_count line.now) }
    ensures { OnOk result (text.new.items ≡ text.old.items ++ lost_words line.now scripts.now lost) }
{
    match lost {
        Some(lost) => {
            text.extend_from_slice(b" lost ")?;
            text.extend_from_slice(name_of_script(scripts, lost.script))?;
            text.extend_from_slice(b" ")?;
            text.extend_from_slice(name_of_terminal(line, lost.terminal))?;
            Ok(())
        }
        None => {
            text.extend_from_slice(b" all")?;
            Ok(())
        }
    }
}
