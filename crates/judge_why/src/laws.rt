//! The law of reasons.

ghost use Rattle.std.specs.Prelude.{ℕ, Bool, List};
ghost use Rattle.judge_why.specs.declared.fact.{Spot.Spot as SpotOf, Fact.Fact as FactOf};
ghost use Rattle.judge_why.specs.{Plays.PlayOf, PlayLaws.AreAlike, PlayLaws.with_levels};
ghost use Rattle.judge_why.specs.Reasons.{IsWhy};

/// Where every gate has the same level at each tick of the run, and the same gates are told, a gate has
/// the same reasons.
pub fn same_levels_have_the_same_reasons()
    ensures { (play : PlayOf) (level : ℕ → ℕ → Bool) (told : ℕ → Bool) (spot : SpotOf)
        (facts : List FactOf) → AreAlike play level told → IsWhy play spot facts →
        IsWhy (with_levels play level told) spot facts }
{}
