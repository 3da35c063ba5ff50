//! The worst place of a fault at a terminal.

ghost use Rattle.std.specs.Prelude.{◌≡◌, [], IfSome, None, decimal};
ghost use Rattle.call_verdicts.specs.Worst.{place_text, room as room_in};
ghost use Rattle.call_verdicts.specs.Worst.{worst_place as first_worst};

use crate::verdict::Verdict;
use model_line::Kind;

/// The place at which a fault is tripped with the least margin, or not at all; of an external fault
/// the one that has to be tripped first. Where there are several it is the first of them, counted
/// from 0.
pub fn worst_place(horizon: u32, verdicts: &[Verdict]) -> usize
    ensures { result ≡ first_worst horizon verdicts.now }
{
    let mut worst = 0;
    for i in 0..verdicts.len() {
        if room(horizon, &verdicts[i]) < room(horizon, &verdicts[worst]) {
            worst = i;
        }
    }
    worst
}

fn room(horizon: u32, verdict: &Verdict) -> u64
    ensures { result ≡ room_in horizon verdict.now }
{
    match (verdict.kind, verdict.first_must) {
        (Kind::Internal, Some(first)) => {
            (verdict.deadline as u64 + horizon as u64 + 1).saturating_sub(first as u64)
        }
        (Kind::Internal, None) => 0,
        (Kind::External, Some(first)) => first as u64,
        (Kind::External, None) => horizon as u64,
    }
}

/// The number of the worst place, counted from 1; none of an external fault that need not be
/// tripped, and where there is no such place.
pub fn number_at(verdicts: &[Verdict], place: usize) -> Option<usize>
    ensures some { IfSome result (λ n. place_text verdicts.now place ≡ decimal n) }
    ensures none { result ≡ None → place_text verdicts.now place ≡ [] }
{
    let one = verdicts.get(place)?;
    match (one.kind, one.first_must) {
        (Kind::External, None) => None,
        _ => Some(place + 1),
    }
}
