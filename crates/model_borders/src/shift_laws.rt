//! The law of shifts.

ghost use Rattle.model_borders.specs.Later.{HistoriesShift};

use model_history::laws::history_laws;

/// Where all that is shown comes so many ticks later, and nothing before, so do all keys and trips: the
/// history moved is the history of what is moved.
pub fn histories_shift()
    ensures { HistoriesShift }
{
    history_laws();
}
