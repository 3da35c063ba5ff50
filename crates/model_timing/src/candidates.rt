//! The candidate timings.

ghost use Rattle.std.specs.Prelude.{◌≡◌, ◌≤◌, ◌<◌, length, IfOk};
ghost use Rattle.std.specs.List.{count_by};
ghost use Rattle.model_line.specs.Parameters.{param_count};
ghost use Rattle.model_timing.specs.Candidates.{is_free as is_free_param};
ghost use Rattle.model_timing.specs.Candidates.{candidate_count as count_of_candidates};
ghost use Rattle.model_timing.specs.Candidates.{candidate_value as value_of_candidate};
ghost use Rattle.model_timing.specs.Candidates.{is_free_number, candidate as candidate_timing};

use crate::timing::Timing;
use model_line::laws::parameters_are_numbered;
use model_line::{Line, Memory, Param};
use run_signal::Tick;
use std::alloc::Global;

/// How many candidates a line has: 2, and 2 more for each parameter that is free.
pub fn candidate_count(line: &Line) -> u32
    ensures { result ≡ count_of_candidates line.now }
{
    parameters_are_numbered();
    2 + 2 * free_count(line.params.as_slice())
}

// The number of a parameter in a candidate.
#[tactic(auto, unfolding(crate::specs::Candidates::candidate_value))]
fn candidate_value(line: &Line, index: u32, param: u32) -> Tick
    requires candidate { index < count_of_candidates line.now }
    requires param { param < param_count line.now }
    ensures { result ≡ value_of_candidate line.now index param }
{
    parameters_are_numbered();
    let least = Tick::new(line.least(param));
    let greatest = Tick::new(line.greatest(param));
    if index == 0 {
        return least;
    }
    if index == 1 {
        return greatest;
    }
    let free = free_count(line.params.as_slice());
    if index <= 1 + free {
        if is_number(line, index - 1, param) {
            greatest
        } else {
            least
        }
    } else if is_number(line, index - 1 - free, param) {
        least
    } else {
        greatest
    }
}

/// A candidate.
pub fn candidate(alloc: Global, line: &Line, index: u32) -> Result<Timing, Memory>
    requires { index < count_of_candidates line.now }
    ensures { IfOk result (λ timing. timing ≡ candidate_timing line.now index) }
{
    let mut values = Vec::new(alloc);
    for param in 0..line.param_count() {
        values.push(candidate_value(line, index, param))?;
    }
    Ok(Timing::new(values))
}

// Whether the parameter is the i-th free one.
fn is_number(line: &Line, i: u32, param: u32) -> bool
    requires { param < param_count line.now }
    ensures { result ≡ is_free_number line.now i param }
{
    parameters_are_numbered();
    line.least(param) < line.greatest(param) && free_count(&line.params[..param as usize]) + 1 == i
}

/// How many of the parameters are free.
pub fn free_count(params: &[Param]) -> u32
    requires { length params.now ≤ 100 }
    ensures count { result ≡ count_by is_free_param params.now }
    ensures few { result ≤ 100 }
{
    params.iter().filter(|p| p.least < p.greatest).count() as u32
}
