//! The laws of scripts whose borders are sums of lengths that are not known.

ghost use Rattle.model_borders.specs.Between.{WhatIsShownLiesBetween, BordersStandWithin};

use model_history::laws::history_laws;

/// Whatever is shown at lengths of a part, in fractions of a tick too, lies between the two scripts of the part,
/// later by what brings the border that stands still to its place.
pub fn what_is_shown_lies_between()
    ensures { WhatIsShownLiesBetween }
{
    history_laws();
}

/// A border stands at its earliest tick or behind it, and at its latest or before, also where another is moved to
/// a place and stands still there.
pub fn borders_stand_within()
    ensures { BordersStandWithin }
{}
