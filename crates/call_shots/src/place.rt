//! Which script of a fault is played.

ghost use Rattle.std.specs.Prelude.{◌≡◌};
ghost use Rattle.std.specs.List.{position};
ghost use Rattle.call_verdicts.specs.Verdicts.{fails_so, is_left};
ghost use Rattle.call_shots.specs.Shots.{shot_place as place_of_shot};

use call_verdicts::{Standing, Verdict, worst_place};

/// The place of the first script that fails; where none does that of the first that is open, and
/// where none is that of the one with the least margin.
pub fn shot_place(horizon: u32, verdicts: &[Verdict]) -> usize
    ensures { result ≡ place_of_shot horizon verdicts.now }
{
    match first_failing(verdicts) {
        Some(place) => place,
        None => match first_open(verdicts) {
            Some(place) => place,
            None => worst_place(horizon, verdicts),
        },
    }
}

fn first_failing(verdicts: &[Verdict]) -> Option<usize>
    ensures { result ≡ position (λ v. fails_so v.standing) verdicts.now }
{
    verdicts.iter().position(|one| fails(one.standing))
}

fn first_open(verdicts: &[Verdict]) -> Option<usize>
    ensures { result ≡ position (λ v. is_left v.standing) verdicts.now }
{
    verdicts.iter().position(|one| is_open(one.standing))
}

fn fails(standing: Standing) -> bool
    ensures { result ≡ fails_so standing }
{
    matches!(standing, Standing::Fails { .. })
}

fn is_open(standing: Standing) -> bool
    ensures { result ≡ is_left standing }
{
    matches!(standing, Standing::Open)
}
