//! The laws of cases over spans of ticks, and of parts that share their ends.

ghost use Rattle.model_fine.specs.SpanLaws.{EachHistoryIsOfOneCase, LevelsFollow};
ghost use Rattle.model_fine.specs.SpanLaws.{FineHistoriesThatAgreeAreCovered, SoundTreesMeet};
ghost use Rattle.model_fine.specs.SpanLaws.{NoHistoryAgreesWithWhatIsExcluded};

use model_history::laws::history_laws;
use model_logic::laws::line_laws;
use model_settle::case_laws::each_box_has_one_history_under;

/// Each fine history wants an echo throughout a span, or is interrupted in it.
pub fn each_history_is_of_one_case()
    ensures { EachHistoryIsOfOneCase }
{
    history_laws();
}

/// The levels that follow from what is assumed are those that the trees have in each fine history
/// that agrees.
pub fn levels_follow()
    ensures { LevelsFollow }
{
    history_laws();
    line_laws();
}

/// The interval history under assumptions covers each fine history that agrees with them.
pub fn fine_histories_that_agree_are_covered()
    ensures { FineHistoriesThatAgreeAreCovered }
{
    history_laws();
    line_laws();
}

/// Where an assumption is excluded, no fine history agrees with all that is assumed.
pub fn no_history_agrees_with_what_is_excluded()
    ensures { NoHistoryAgreesWithWhatIsExcluded }
{
    history_laws();
    line_laws();
}

/// A sound tree of parts and spans whose leaves are all yes says that every choice of fractions meets
/// the obligation.
pub fn sound_trees_meet()
    ensures { SoundTreesMeet }
{
    history_laws();
    line_laws();
    each_box_has_one_history_under();
}
