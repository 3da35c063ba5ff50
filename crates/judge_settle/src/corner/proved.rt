//! What the cutting rests on.

ghost use Rattle.std.specs.Prelude.{◌<◌, ℕ, List, IsTrue, length};
ghost use Rattle.std.specs.List.{remove};
ghost use Rattle.model_timing.specs.Timing.{ascend};
ghost use Rattle.model_timing.specs.declared.step.Step.{Step};

/// Steps stay in order where one is left out.
pub fn steps_stay_in_order()
    ensures { (steps : List (Step ℕ)) (j : ℕ) → IsTrue (ascend steps) →
        IsTrue (ascend (remove steps j)) }
{}
