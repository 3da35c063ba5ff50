//! Warnings of the terminals and their elements.

ghost use Rattle.std.specs.Prelude.{◌≡◌, ◌++◌, ◌<◌, OnOk};
ghost use Rattle.std.specs.List.{flat_map};
ghost use Rattle.model_line.specs.Parameters.{terminal_count};
ghost use Rattle.model_line.specs.Seen.{is_of_place};
ghost use Rattle.model_logic.specs.Elements.{pickup_and_dropout as element_times};
ghost use Rattle.call_lint.specs.warnings.ElementTests.{is_shown_in, is_shown, is_set, is_timed};
ghost use Rattle.call_lint.specs.warnings.Listed.{told_below};
ghost use Rattle.call_lint.specs.warnings.Warnings.{element_warnings, terminal_warnings};

use crate::warnings::listed::push_if;
use crate::warnings::warning::Warning;
use model_line::laws::parameters_are_numbered;
use model_line::{Element, Line, Memory, Owner, Place, Script, Setting, What};
use model_logic::{is_terminal_guarded, is_terminal_weak, pickup_and_dropout};

const TIMED_ELEMENTS: &[Element] = &[Element::Z1, Element::Z2, Element::Rv, Element::Uv];

/// Adds the warnings of the terminals.
pub fn push_terminals(
    list: &mut Vec<Warning>,
    line: &Line,
    scripts: &[Script],
) -> Result<(), Memory>
    ensures { OnOk result (list.new.items
        ≡ list.old.items
        ++ told_below (terminal_count line.now) (terminal_warnings line.now scripts.now)) }
{
    for k in 0..line.terminals.len() {
        push_terminal(list, line, scripts, k as u32)?;
    }
    Ok(())
}

#[tactic(auto, unfolding(crate::specs::warnings::Warnings::terminal_warnings))]
fn push_terminal(
    list: &mut Vec<Warning>,
    line: &Line,
    scripts: &[Script],
    k: u32,
) -> Result<(), Memory>
    requires { k < terminal_count line.now }
    ensures { OnOk result (list.new.items
        ≡ list.old.items ++ terminal_warnings line.now scripts.now k) }
{
    let reverse = Place {
        element: Element::Rv,
        terminal: k,
    };
    let unguarded = is_terminal_guarded(line, k) && !is_shown(scripts, reverse);
    push_if(list, unguarded, Warning::Unguarded(k))?;
    let undervoltage = Place {
        element: Element::Uv,
        terminal: k,
    };
    let unechoed = is_terminal_weak(line, k) && !is_shown(scripts, undervoltage);
    push_if(list, unechoed, Warning::Unechoed(k))?;
    push_elements(list, line, scripts, k, TIMED_ELEMENTS)
}

fn push_elements(
    list: &mut Vec<Warning>,
    line: &Line,
    scripts: &[Script],
    k: u32,
    elements: &[Element],
) -> Result<(), Memory>
    requires { k < terminal_count line.now }
    ensures { OnOk result (list.new.items
        ≡ list.old.items ++ flat_map (element_warnings line.now scripts.now k) elements.now) }
{
    for element in elements {
        push_element(list, line, scripts, k, *element)?;
    }
    Ok(())
}

#[tactic(auto, unfolding(crate::specs::warnings::Warnings::element_warnings))]
fn push_element(
    list: &mut Vec<Warning>,
    line: &Line,
    scripts: &[Script],
    k: u32,
    element: Element,
) -> Result<(), Memory>
    requires { k < terminal_count line.now }
    ensures { OnOk result (list.new.items
        ≡ list.old.items ++ element_warnings line.now scripts.now k element) }
{
    let place = Place {
        element,
        terminal: k,
    };
    let shown = is_shown(scripts, place);
    let timed = is_timed(line, k, pickup_and_dropout(element));
    push_if(list, shown && !timed, Warning::Untimed(place))
}

fn is_timed(line: &Line, k: u32, settings: Option<(Setting, Setting)>) -> bool
    requires { k < terminal_count line.now }
    ensures { result ≡ is_timed line.now k settings }
{
    match settings {
        Some((pickup, dropout)) => is_set(line, k, pickup) || is_set(line, k, dropout),
        None => false,
    }
}

fn is_set(line: &Line, k: u32, setting: Setting) -> bool
    requires { k < terminal_count line.now }
    ensures { result ≡ is_set line.now k setting }
{
    parameters_are_numbered();
    match line.param_of(Owner::Terminal(k), setting) {
        Some(i) => 0 < line.greatest(i),
        None => false,
    }
}

fn is_shown(scripts: &[Script], place: Place) -> bool
    ensures { result ≡ is_shown scripts.now place }
{
    scripts.iter().any(|script| is_shown_in(place, script))
}

/// Whether the script has a span of the place.
pub fn is_shown_in(place: Place, script: &Script) -> bool
    ensures { result ≡ is_shown_in place script.now }
{
    script
        .spans
        .iter()
        .any(|span| is_of_place(place, span.what))
}

fn is_of_place(place: Place, what: What) -> bool
    ensures { result ≡ is_of_place place what }
{
    match what {
        What::Element(own) => own == place,
        What::Loss(_) => false,
    }
}
