//! The timed cell of one lane, in numbers of 16 bits. No branch stands in its way, so that the
//! lanes are taken many at a time.
#![tactic(auto)]

ghost use Rattle.std.specs.Prelude.{◌≡◌, ◌+◌, ◌≤◌, ◌==◌};
ghost use Rattle.run_signal.specs.Counts.{run_after, left_after, steady_of};

/// The run after so many more ticks, all with this input, which is 1 where it is on and else 0.
pub fn run_after(pickup: u16, run: u16, on: u16, count: u16) -> u16
    requires pickup { pickup ≤ 4000 }
    requires run { run ≤ 4001 }
    requires on { on ≤ 1 }
    requires count { count ≤ 4000 }
    ensures { result ≡ run_after pickup count run (on == 1) }
{
    (run + count).min(pickup + 1) * on
}

/// What is left after so many more ticks, where this is the run after them.
pub fn left_after(pickup: u16, dropout: u16, run: u16, left: u16, count: u16) -> u16
    requires dropout { dropout ≤ 4000 }
    requires left { left ≤ dropout + 1 }
    ensures { result ≡ left_after pickup dropout count run left }
{
    let held = (pickup < run) as u16 * (dropout + 1);
    left.saturating_sub(count).max(held)
}

/// For how many ticks with this input the answer stays the same, up to 4,000.
pub fn steady_ticks(pickup: u16, run: u16, left: u16, on: u16) -> u16
    ensures { result ≡ steady_of pickup run left (on == 1) }
{
    let wait = if on == 1 {
        pickup.saturating_sub(run)
    } else {
        4000
    };
    let rest = if 1 < left { left - 1 } else { wait };
    if wait < left.max(1) { 4000 } else { rest }
}
