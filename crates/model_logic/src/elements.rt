//! What a terminal is, and the times of what it sees.

ghost use Rattle.std.specs.Prelude.{◌≡◌, ◌<◌};
ghost use Rattle.model_line.specs.Parameters.{terminal_count};
ghost use Rattle.model_logic.specs.Elements.{is_guarded, is_weak};
ghost use Rattle.model_logic.specs.Elements.{pickup_and_dropout as element_times};

use model_line::{Element, Line, Setting};

/// Whether the terminal is guarded against current reversal.
pub fn is_terminal_guarded(line: &Line, k: u32) -> bool
    requires { k < terminal_count line.now }
    ensures { result ≡ is_guarded line.now k }
{
    line.terminals[k as usize].guard
}

/// Whether the terminal is a weak infeed.
pub fn is_terminal_weak(line: &Line, k: u32) -> bool
    requires { k < terminal_count line.now }
    ensures { result ≡ is_weak line.now k }
{
    line.terminals[k as usize].weak
}

/// The pickup and the dropout of an element, if it is timed.
pub fn pickup_and_dropout(element: Element) -> Option<(Setting, Setting)>
    ensures { result ≡ element_times element }
{
    match element {
        Element::Z1 => Some((Setting::Z1Pickup, Setting::Z1Dropout)),
        Element::Z2 => Some((Setting::Z2Pickup, Setting::Z2Dropout)),
        Element::Rv => Some((Setting::RvPickup, Setting::RvDropout)),
        Element::Uv => Some((Setting::UvPickup, Setting::UvDropout)),
        Element::Cur => None,
    }
}
