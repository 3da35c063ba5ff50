//! The inception of a fault.

ghost use Rattle.std.specs.Prelude.{◌≡◌, ◌<◌, IfSome};
ghost use Rattle.draw_run.specs.diagram.Times.{is_begun, shows_fault, is_of_fault};
ghost use Rattle.run_waves.specs.waves.FirstTick.{first_on};

use model_line::{Element, Script, SeenSpan, What};
use run_waves::waves::the_first_tick_is_the_least;

/// The first tick below the horizon at which some terminal sees a zone, the reverse or the
/// undervoltage element; current alone is no fault.
pub fn inception(script: &Script, horizon: u32) -> Option<u32>
    ensures first { result ≡ first_on (is_begun script.now.spans.items) horizon }
    ensures below { IfSome result (λ t. t < horizon) }
{
    the_first_tick_is_the_least();
    for t in 0..horizon {
        if begun(script, t) {
            return Some(t);
        }
    }
    None
}

fn begun(script: &Script, t: u32) -> bool
    ensures { result ≡ is_begun script.now.spans.items t }
{
    script.spans.iter().any(|s| span_shows_fault(s, t))
}

fn span_shows_fault(span: &SeenSpan, t: u32) -> bool
    ensures { result ≡ shows_fault t span.now }
{
    match span.what {
        What::Element(seen) => of_fault(seen.element) && span.from <= t && t < span.to,
        What::Loss(_) => false,
    }
}

fn of_fault(element: Element) -> bool
    ensures { result ≡ is_of_fault element }
{
    match element {
        Element::Z1 | Element::Z2 | Element::Rv | Element::Uv => true,
        Element::Cur => false,
    }
}
