//! The laws of views.

ghost use Rattle.std.specs.Prelude.{◌≡◌, ◌↔◌, ℕ, List};
ghost use Rattle.model_line.specs.{declared.line.Line.Line, declared.script.Script.Script};
ghost use Rattle.model_logic.specs.Choice.{Box};
ghost use Rattle.model_settle.specs.Assumed.{Assumption};
ghost use Rattle.model_settle.specs.CaseTrees.{IsShownUnder};
ghost use Rattle.judge_cases.specs.declared.view.View.{View};
ghost use Rattle.judge_cases.specs.{Views.Views, Analyses.IsShownOf};

use model_settle::case_laws::what_is_shown_rests_on_the_box;

/// What is shown over a view is shown over the box and the assumptions that it is of.
pub fn a_view_stands_for_its_box()
    ensures { (line : Line) (script : Script) (k : ℕ) (box : Box) (assumed : List Assumption)
        (view : View) → Views line box assumed view →
        IsShownOf line script k view ↔ IsShownUnder line script k box assumed }
{
    what_is_shown_rests_on_the_box();
}
