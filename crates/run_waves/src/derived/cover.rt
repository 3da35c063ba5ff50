//! Where one wave does not cover another.

ghost use Rattle.std.specs.Prelude.{◌≡◌, ◌<◌, ℕ, length, MatchOption};
ghost use Rattle.model_history.specs.Rails.{RailsCover};
ghost use Rattle.run_waves.specs.waves.Waves.{wave_at};
ghost use Rattle.run_waves.specs.derived.Firsts.{IsFirstFailing};

use crate::waves::Runs;
use model_history::rails_laws::covering_is_an_order;
use run_signal::covers;

/// The first tick at which one wave does not cover the other.
pub fn first_uncovered_tick(wide: &Runs, narrow: &Runs) -> Option<u32>
    requires { length narrow.now ≡ length wide.now }
    ensures { MatchOption result
        ((t : ℕ) → t < length wide.now → RailsCover (wave_at wide.now t) (wave_at narrow.now t))
        (λ t. IsFirstFailing (λ r. RailsCover (wave_at wide.now r) (wave_at narrow.now r))
        (length wide.now) t) }
{
    covering_is_an_order();
    if wide.is_like(narrow) {
        return None;
    }
    let mut wides = wide.cursor();
    let mut narrows = narrow.cursor();
    let mut t = 0;
    'stretches: while t < wide.len() {
        let first = wides.stretch(t);
        let second = narrows.stretch(t);
        if !covers(first.level, second.level) {
            return Some(t);
        }
        t = first.end.min(second.end);
    }
    None
}
