//! Whether claimed numbers are inside the declared intervals.

ghost use Rattle.std.specs.Prelude.{◌≡◌, ◌↔◌, ◌<◌, ℕ, length, IsTrue, MatchOption};
ghost use Rattle.model_line.specs.Parameters.{param_count, declared_ends};
ghost use Rattle.model_logic.specs.Choice.{IsIn};
ghost use Rattle.run_waves.specs.derived.Firsts.{IsFirstFailing};
ghost use Rattle.cert_claims.specs.check.Refutations.{IsNumberIn};

use model_line::Line;
use run_waves::derived::declared_param;

/// The first parameter whose number is not in its interval.
pub fn first_outside(line: &Line, values: &[u32]) -> Option<u32>
    requires { length values.now ≡ param_count line.now }
    ensures { MatchOption result
        ((i : ℕ) → i < param_count line.now → IsNumberIn line.now values.now i)
        (λ i. IsFirstFailing (IsNumberIn line.now values.now) (param_count line.now) i) }
{
    for param in 0..line.param_count() {
        if !is_in(line, param, values[param as usize]) {
            return Some(param);
        }
    }
    None
}

// Whether a number lies in the interval of a parameter.
fn is_in(line: &Line, param: u32, value: u32) -> bool
    requires { param < param_count line.now }
    ensures { IsTrue result ↔ IsIn value (declared_ends line.now param) }
{
    let bounds = declared_param(line, param);
    bounds.least() <= value && value <= bounds.greatest()
}
