//! The laws of scripts whose borders are not known.

ghost use Rattle.model_fine.specs.LooseLaws.{LooseHistoriesCover, TheLooseRuleSpeaks};
ghost use Rattle.model_fine.specs.Onward.{HistoriesGoOn};

use model_history::laws::history_laws;
use model_logic::interval_laws::trees_do_not_rest_on_the_intervals;
use model_logic::laws::line_laws;

/// The interval history over two scripts covers the fine history of each fine choice within its box,
/// under whatever is shown between the two, also where it begins or ends within a tick.
pub fn loose_histories_cover()
    ensures { LooseHistoriesCover }
{
    history_laws();
    line_laws();
}

/// What is held over it is met, and what is broken over it is not.
pub fn the_loose_rule_speaks()
    ensures { TheLooseRuleSpeaks }
{
    history_laws();
    line_laws();
}

/// Each history of a line is the begin of one of the line that is played on beyond its horizon.
pub fn histories_go_on()
    ensures { HistoriesGoOn }
{
    history_laws();
    line_laws();
    trees_do_not_rest_on_the_intervals();
}
