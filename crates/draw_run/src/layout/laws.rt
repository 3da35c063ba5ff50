//! The laws of a drawing: what a reader may rest on.

ghost use Rattle.draw_run.specs.layout.LayoutLaws.{BarsShowTheHistory, PlacesKeepTheOrder};
ghost use Rattle.draw_run.specs.layout.LayoutLaws.{RowsLieApart, RowsStandOnBases};
ghost use Rattle.draw_run.specs.layout.LayoutLaws.{ShownTicksStandApart};

/// Ticks stand on the axis in their order, and those that are shown at places of their own.
pub fn places_follow_the_ticks()
    ensures order { PlacesKeepTheOrder }
    ensures apart { ShownTicksStandApart }
{}

/// A tick that is shown lies in some bar of a row exactly where the row may be on there, and in a
/// full one exactly where it must be.
pub fn bars_show_the_history()
    ensures { BarsShowTheHistory }
{
    places_follow_the_ticks();
}

/// The rows stand one below the other, and the bars of none lie over another.
pub fn rows_lie_apart()
    ensures bases { RowsStandOnBases }
    ensures apart { RowsLieApart }
{}
