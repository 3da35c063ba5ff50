//! Over what was recorded up to a tick, the operations are those over the whole history.
#![tactic(auto)]

ghost use Rattle.model_history.specs.Laws.{RecordingsGiveTheirTicks, RecordedTicksSuffice};

/// A recording of so many ticks has so many, and gives them back.
pub fn recordings_give_their_ticks()
    ensures { RecordingsGiveTheirTicks }
{}

/// The elements over the ticks up to t, and what is received over the ticks before t.
pub fn recorded_ticks_suffice()
    ensures { RecordedTicksSuffice }
{}
