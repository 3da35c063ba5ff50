//! Parts that differ in one length, and share an end of it.

ghost use Rattle.std.specs.Prelude.{◌<◌, ◌≤◌, length, slice_set, IfOk};
ghost use Rattle.judge_borders.specs.Parts.{IsPart};
ghost use Rattle.judge_borders.specs.Halves.{AreTwoOf, WithLength};

use model_line::Memory;
use run_signal::Within;
use std::alloc::Global;

/// Two parts that differ in one length: up to a tick, and from it on.
#[derive(Drop)]
pub struct TwoParts {
    pub lower: Vec<Within>,
    pub upper: Vec<Within>,
}

/// The halves of a part, cut at the middle of one length, a fraction rounded down.
pub fn halves(alloc: Global, part: &[Within], place: u32) -> Result<TwoParts, Memory>
    requires part { IsPart part.now }
    requires exists { place < length part.now }
    ensures { IfOk result (AreTwoOf part.now) }
{
    let own = part[place as usize];
    let middle = (own.least() + own.greatest()) / 2;
    parted(alloc, part, place, middle)
}

/// A part cut at a tick of one length, or at the nearest that it has. Both of the new ones have that tick, so that none
/// of its lengths is in neither, fractions of a tick included.
pub fn parted(alloc: Global, part: &[Within], place: u32, at: u32) -> Result<TwoParts, Memory>
    requires part { IsPart part.now }
    requires exists { place < length part.now }
    ensures { IfOk result (AreTwoOf part.now) }
{
    let own = part[place as usize];
    let tick = nearest(own, at);
    let lower = with_length(alloc, part, place, Within::new(own.least(), tick))?;
    let upper = with_length(alloc, part, place, Within::new(tick, own.greatest()))?;
    Ok(TwoParts { lower, upper })
}

// The tick of an interval that is nearest to this one.
fn nearest(own: Within, at: u32) -> u32
    ensures from { own.least ≤ result }
    ensures to { result ≤ own.greatest }
{
    let (least, greatest) = (own.least(), own.greatest());
    if at < least {
        least
    } else if at > greatest {
        greatest
    } else {
        at
    }
}

// A part with another interval for one length.
fn with_length(
    alloc: Global,
    part: &[Within],
    place: u32,
    own: Within,
) -> Result<Vec<Within>, Memory>
    requires { place < length part.now }
    ensures { IfOk result (λ new. WithLength part.now new.items place own) }
{
    let mut new = Vec::from_slice(alloc, part)?;
    new[place as usize] = own;
    Ok(new)
}
