//! A law of samples.

ghost use Rattle.std.specs.Prelude.{◌≡◌};
ghost use Rattle.file_comtrade.specs.{Levels.NeverFalls, Ticks.IsHolding};

/// Where times never fall, one sample alone holds at an instant.
pub fn one_sample_holds(times: &[u64], instant: u128, i: usize, j: usize)
    requires never { NeverFalls times.now }
    requires here { IsHolding times.now instant i }
    requires there { IsHolding times.now instant j }
    ensures { i ≡ j }
{}
