//! Delays that change at ticks.

ghost use Rattle.std.specs.Prelude.{◌≡◌, ◌≤◌, IsTrue};
ghost use Rattle.model_timing.specs.Timing.{ascend, is_passed, number_at};
ghost use Rattle.run_step.specs.{Steps.IsParted, Quiet.NoStepIn};

use model_timing::Step;

/// The value of a parameter at a tick: that of its step with the greatest `from` not after the
/// tick, else its own. So many of the steps are passed.
pub fn value_at<P: Copy>(steps: &[Step<P>], own: P, param: u32, t: u32, passed: usize) -> P
    requires ascending { IsTrue (ascend steps.now) }
    requires parted { IsParted param t steps.now passed }
    ensures { result ≡ number_at steps.now param t own }
{
    if passed == 0 {
        return own;
    }
    let last = steps[passed - 1];
    if last.param == param { last.value } else { own }
}

/// For how many ticks from this one on no step of the parameter comes. So many of the steps are
/// passed.
pub fn steps_stay<P: Copy>(steps: &[Step<P>], param: u32, t: u32, passed: usize) -> u32
    requires ascending { IsTrue (ascend steps.now) }
    requires parted { IsParted param t steps.now passed }
    ensures some { 1 ≤ result }
    ensures keeps { NoStepIn steps.now param t result }
{
    if passed == steps.len() {
        return 4000;
    }
    let next = steps[passed];
    if next.param == param {
        next.from - t
    } else {
        4000
    }
}

/// How many steps are passed: of earlier parameters, or of this one and come. The search takes as
/// many looks as the number of steps has binary digits.
pub fn passed_steps<P: Copy>(steps: &[Step<P>], param: u32, t: u32) -> usize
    requires { IsTrue (ascend steps.now) }
    ensures { IsParted param t steps.now result }
{
    let mut low = 0;
    let mut high = steps.len();
    while low < high {
        let middle = low + (high - low) / 2;
        if has_passed(&steps[middle], param, t) {
            low = middle + 1;
        } else {
            high = middle;
        }
    }
    low
}

// Whether a step is of an earlier parameter, or of this one and has come.
fn has_passed<P: Copy>(step: &Step<P>, param: u32, t: u32) -> bool
    ensures { result ≡ is_passed param t step.now }
{
    step.param < param || (step.param == param && step.from <= t)
}
