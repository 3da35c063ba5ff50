//! The interval rules of everything but the delay.
#![tactic(auto)]

ghost use Rattle.model_history.specs.Laws.{CoveringIsAnOrder, RailsCoverValues, RailsCoverRails};
ghost use Rattle.model_history.specs.Laws.{RailsStaySound, RailsAtSingleNumbers, RailsReadThePast};

/// Rails that cover rails that cover others cover those. To cover both rails of a truth value is to
/// cover the value.
pub fn covering_is_an_order()
    ensures { CoveringIsAnOrder }
{}

/// Over rails that cover truth values, and ends around the numbers, the rails cover the value.
pub fn rails_cover_values()
    ensures { RailsCoverValues }
{}

/// Over rails that cover rails, and ends around ends, the rails cover the narrower ones.
pub fn rails_cover_rails()
    ensures { RailsCoverRails }
{}

/// Where what must be may be, and the ends are in order, it is so of the rails too.
pub fn rails_stay_sound()
    ensures { RailsStaySound }
{}

/// Over single numbers, and rails that are both the same, both rails are the element.
pub fn rails_at_single_numbers()
    ensures { RailsAtSingleNumbers }
{}

/// Only the ticks so far matter.
pub fn rails_read_the_past()
    ensures { RailsReadThePast }
{}
