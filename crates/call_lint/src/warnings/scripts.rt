//! Warnings of scripts.

ghost use Rattle.std.specs.Prelude.{◌≡◌, ◌++◌, ◌+◌, ◌<◌, ◌^◌, OnOk, length, slice_get, Some};
ghost use Rattle.model_line.specs.Parameters.{terminal_count};
ghost use Rattle.call_lint.specs.warnings.ScriptTests.{is_there, stays, all_stay, nothing_changes};
ghost use Rattle.call_lint.specs.warnings.ScriptTests.{is_internal, begins_after, is_due_first};
ghost use Rattle.call_lint.specs.warnings.ScriptTests.{each_begins_after};
ghost use Rattle.call_lint.specs.warnings.ScriptTests.{lacks_current};
ghost use Rattle.call_lint.specs.warnings.Listed.{told_if, told_below};
ghost use Rattle.call_lint.specs.warnings.Warnings.{script_warnings};
ghost use Rattle.call_lint.specs.declared.warnings.warning.Warning.TheVariants.{NoCurrent};

use crate::warnings::elements::is_shown_in;
use crate::warnings::listed::push_if;
use crate::warnings::warning::Warning;
use model_line::{Element, Kind, Line, Memory, Place, Script, SeenSpan, What, lost_in, shown_in};

/// Adds the warnings of the scripts.
pub fn push_scripts(list: &mut Vec<Warning>, line: &Line, scripts: &[Script]) -> Result<(), Memory>
    ensures { OnOk result (list.new.items
        ≡ list.old.items
        ++ told_below (length scripts.now)
        (λ s. script_warnings line.now s (slice_get scripts.now s))) }
{
    for s in 0..scripts.len() {
        push_script_at(list, line, scripts, s)?;
    }
    Ok(())
}

fn push_script_at(
    list: &mut Vec<Warning>,
    line: &Line,
    scripts: &[Script],
    s: usize,
) -> Result<(), Memory>
    ensures { OnOk result (list.new.items
        ≡ list.old.items ++ script_warnings line.now s (slice_get scripts.now s)) }
{
    match scripts.get(s) {
        Some(script) => push_script(list, line, s, script),
        None => Ok(()),
    }
}

fn push_script(
    list: &mut Vec<Warning>,
    line: &Line,
    s: usize,
    script: &Script,
) -> Result<(), Memory>
    ensures { OnOk result (list.new.items
        ≡ list.old.items ++ script_warnings line.now s (Some script.now)) }
{
    let still = nothing_changes(line.horizon, &script.spans);
    push_if(list, still, Warning::NothingChanges(s))?;
    push_if(list, is_due_first(script), Warning::DueFirst(s))?;
    push_currents(list, line, s, script)
}

fn push_currents(
    list: &mut Vec<Warning>,
    line: &Line,
    s: usize,
    script: &Script,
) -> Result<(), Memory>
    ensures { OnOk result (list.new.items
        ≡ list.old.items
        ++ told_below (terminal_count line.now)
        (λ k. told_if (lacks_current script.now k) (NoCurrent s k))) }
{
    for k in 0..line.terminals.len() {
        push_current(list, s, script, k as u32)?;
    }
    Ok(())
}

fn push_current(list: &mut Vec<Warning>, s: usize, script: &Script, k: u32) -> Result<(), Memory>
    ensures { OnOk result (list.new.items
        ≡ list.old.items ++ told_if (lacks_current script.now k) (NoCurrent s k)) }
{
    push_if(list, lacks_current(script, k), Warning::NoCurrent(s, k))
}

fn lacks_current(script: &Script, k: u32) -> bool
    ensures { result ≡ lacks_current script.now k }
{
    let current = Place {
        element: Element::Cur,
        terminal: k,
    };
    is_internal(script.kind) && !is_shown_in(current, script)
}

fn is_internal(kind: Kind) -> bool
    ensures { result ≡ is_internal kind }
{
    match kind {
        Kind::Internal => true,
        Kind::External => false,
    }
}

fn is_due_first(script: &Script) -> bool
    ensures { result ≡ is_due_first script.now }
{
    is_internal(script.kind) && begins_after(script.deadline, &script.spans)
}

fn begins_after(deadline: u32, spans: &[SeenSpan]) -> bool
    ensures { result ≡ begins_after deadline spans.now }
{
    !spans.is_empty() && each_begins_after(deadline, spans)
}

fn each_begins_after(deadline: u32, spans: &[SeenSpan]) -> bool
    ensures { result ≡ each_begins_after deadline spans.now }
{
    spans.iter().all(|span| deadline < span.from)
}

fn nothing_changes(horizon: u32, spans: &[SeenSpan]) -> bool
    ensures { result ≡ nothing_changes horizon spans.now }
{
    for t in 0..horizon.saturating_sub(1) {
        if !all_stay(spans, t) {
            return false;
        }
    }
    true
}

fn all_stay(spans: &[SeenSpan], t: u32) -> bool
    requires { t + 1 < 2 ^ 32 }
    ensures { result ≡ all_stay spans.now t }
{
    spans.iter().all(|span| stays(spans, span.what, t))
}

fn stays(spans: &[SeenSpan], what: What, t: u32) -> bool
    requires { t + 1 < 2 ^ 32 }
    ensures { result ≡ stays spans.now what t }
{
    let after = is_there(spans, what, t + 1);
    if is_there(spans, what, t) {
        after
    } else {
        !after
    }
}

fn is_there(spans: &[SeenSpan], what: What, t: u32) -> bool
    ensures { result ≡ is_there spans.now what t }
{
    match what {
        What::Element(place) => shown_in(spans, place, t),
        What::Loss(channel) => lost_in(spans, channel, t),
    }
}
