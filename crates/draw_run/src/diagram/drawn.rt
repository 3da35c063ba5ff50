//! Which rows are drawn.

ghost use Rattle.std.specs.Prelude.{◌≡◌};
ghost use Rattle.draw_run.specs.diagram.Drawn.{changes, has_marks, is_drawn, is_ever_shown, is_off};
ghost use Rattle.draw_run.specs.diagram.Drawn.{is_shown, tells};

use crate::diagram::stretch::Stretch;
use crate::diagram::trace::Trace;
use draw_shapes::Rows;
use run_signal::Tern;

/// Whether a row of these stretches and marks is drawn.
pub fn is_drawn(which: Rows, trace: Trace, stretches: &[Stretch], marks: &[u32]) -> bool
    ensures { result ≡ is_drawn which trace stretches.now marks.now }
{
    match which {
        Rows::Changing => tells(trace, stretches, marks),
        Rows::All => true,
    }
}

fn tells(trace: Trace, stretches: &[Stretch], marks: &[u32]) -> bool
    ensures { result ≡ tells trace stretches.now marks.now }
{
    match trace {
        Trace::Key(_) | Trace::Trip(_) => true,
        Trace::Seen(_) | Trace::Lost(_) => is_ever_shown(stretches),
        Trace::Logic(_, _) => changes(stretches) || has_marks(marks),
    }
}

fn changes(stretches: &[Stretch]) -> bool
    ensures { result ≡ changes stretches.now }
{
    match stretches {
        [] | [_] => false,
        [_, _, ..] => true,
    }
}

/// Whether there are any marks.
pub fn has_marks(marks: &[u32]) -> bool
    ensures { result ≡ has_marks marks.now }
{
    match marks {
        [] => false,
        [_, ..] => true,
    }
}

fn is_ever_shown(stretches: &[Stretch]) -> bool
    ensures { result ≡ is_ever_shown stretches.now }
{
    stretches.iter().any(|s| is_shown(s))
}

fn is_shown(stretch: &Stretch) -> bool
    ensures { result ≡ is_shown stretch.now }
{
    !is_off(stretch.value)
}

/// Whether a value is off: neither on nor open.
pub fn is_off(value: Tern) -> bool
    ensures { result ≡ is_off value }
{
    match value {
        Tern::Zero => true,
        Tern::One | Tern::Unknown => false,
    }
}
