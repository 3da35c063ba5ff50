//! The delay, and what is received by the interval rule, where the ends of the delay may move from
//! tick to tick.
#![tactic(auto)]

ghost use Rattle.model_history.specs.Laws.{DelaysAreTheirFacts, OneDelayReadsOneTick};
ghost use Rattle.model_history.specs.Laws.{DelaysReadEarlierTicks, DelaysCover, DelaysStaySound};
ghost use Rattle.model_history.specs.Laws.{DelaysAtSingleNumbers};

/// The truth values are what the facts of their names say.
pub fn delays_are_their_facts()
    ensures { DelaysAreTheirFacts }
{}

/// What arrives after one delay is what was there so many ticks before, and off before that.
pub fn one_delay_reads_one_tick()
    ensures { OneDelayReadsOneTick }
{}

/// What is received at a tick rests on the keys of the ticks from the greatest to the least delay
/// before it alone, so with delays of at least 1 on keys of earlier ticks alone.
pub fn delays_read_earlier_ticks()
    ensures { DelaysReadEarlierTicks }
{}

/// Over keys that cover, and ends around the delay of the tick, what is received is covered.
pub fn delays_cover()
    ensures { DelaysCover }
{}

/// What must be received may be, where that is so of the keys and the ends are in order.
pub fn delays_stay_sound()
    ensures { DelaysStaySound }
{}

/// Over single delays, and keys whose rails are both the same, both rails are what is delayed.
pub fn delays_at_single_numbers()
    ensures { DelaysAtSingleNumbers }
{}
