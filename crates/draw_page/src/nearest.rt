//! Which fault has the least to spare, and where.

ghost use Rattle.std.specs.Prelude.{◌≡◌};
ghost use Rattle.draw_page.specs.Nearest.{end_of, near_view, nearer_of, nearest_end, nearest_of};

use crate::page::{Fault, Verdict};

/// So many ticks are to spare of a fault at a terminal, both by their names.
#[derive(Clone, Copy)]
pub struct Near<'a> {
    pub ticks: u32,
    pub fault: &'a [u8],
    pub terminal: &'a [u8],
}

/// The least that is to spare, the first of several.
pub fn nearest(faults: &[Fault]) -> Option<Near<'_>>
    ensures { near_view result ≡ nearest_of faults.now }
{
    match faults {
        [] => None,
        [fault, more @ ..] => {
            let own = nearest_end(fault.name.as_slice(), fault.verdicts.as_slice());
            nearer(own, nearest(more))
        }
    }
}

// The same of a fault of this name.
fn nearest_end<'a>(fault: &'a [u8], verdicts: &'a [Verdict]) -> Option<Near<'a>>
    ensures { near_view result ≡ nearest_end fault.now verdicts.now }
{
    match verdicts {
        [] => None,
        [verdict, more @ ..] => nearer(end(fault, verdict), nearest_end(fault, more)),
    }
}

// What is to spare at a terminal, if that is known.
fn end<'a>(fault: &'a [u8], verdict: &'a Verdict) -> Option<Near<'a>>
    ensures { near_view result ≡ end_of fault.now verdict.now }
{
    match verdict.spare {
        Some(ticks) => Some(Near {
            ticks,
            fault,
            terminal: verdict.terminal.as_slice(),
        }),
        None => None,
    }
}

// The one with less to spare.
fn nearer<'a>(first: Option<Near<'a>>, second: Option<Near<'a>>) -> Option<Near<'a>>
    ensures { near_view result ≡ nearer_of (near_view first.entry) (near_view second.entry) }
{
    match (first, second) {
        (None, second) => second,
        (Some(a), None) => Some(a),
        (Some(a), Some(b)) => { if b.ticks < a.ticks { Some(b) } else { Some(a) } }
    }
}
