//! What a seal cell stands for, and elements through a stretch of equal inputs.
#![tactic(auto)]

ghost use Rattle.std.specs.Prelude.{◌≡◌, List, [], ◌∷◌, ◌++◌, length};
ghost use Rattle.model_history.specs.Rails.{Rails, rails_sealed, rails_at};
ghost use Rattle.run_signal.specs.{Seals.SealStandsFor, Stretches.ElementsInAStretch};

use model_history::laws::history_laws;

/// An answer that stands for two histories, each with one more tick, is their seal at that tick.
pub fn a_seal_is_its_last_answer()
    ensures { (sets keeps : List Rails) (x y now : Rails) →
        SealStandsFor now (sets ++ x ∷ []) (keeps ++ y ∷ []) →
        now ≡ rails_sealed (rails_at (sets ++ x ∷ [])) (rails_at (keeps ++ y ∷ [])) (length sets) }
{}

/// Over a stretch of ticks with equal inputs a seal stays as it is, and so does a timed element
/// while its next answers are equal.
pub fn elements_stay_in_a_stretch()
    ensures { ElementsInAStretch }
{
    history_laws();
}
