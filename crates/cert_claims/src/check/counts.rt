//! How many verdicts of each kind a certificate has.

ghost use Rattle.std.specs.Prelude.{◌≡◌, ◌+◌, ◌≤◌, ◌*◌, ◌∷◌, [], length, map};
ghost use Rattle.std.specs.List.{All};
ghost use Rattle.cert_claims.specs.text.Grammar.{claims_in, verdict_in};
ghost use Rattle.cert_claims.specs.check.Counts.{AreCounts, Adds, all_verdicts};

use crate::text::{Claim, ScriptClaims};

/// How many obligations are claimed to be met, to fail, and neither.
#[derive(Clone, Copy)]
pub struct Counts {
    pub yes: u32,
    pub no: u32,
    pub undecided: u32,
}

// The counts after one verdict more.
fn with_one(counts: Counts, verdict: &Claim) -> Counts
    requires { (counts.yes ≤ 1000000) × (counts.no ≤ 1000000) × (counts.undecided ≤ 1000000) }
    ensures { Adds counts (verdict_in verdict.now ∷ []) result }
{
    match verdict {
        Claim::Yes => Counts {
            yes: counts.yes + 1,
            no: counts.no,
            undecided: counts.undecided,
        },
        Claim::No(_) => Counts {
            yes: counts.yes,
            no: counts.no + 1,
            undecided: counts.undecided,
        },
        Claim::Undecided => Counts {
            yes: counts.yes,
            no: counts.no,
            undecided: counts.undecided + 1,
        },
    }
}

// The counts after the verdicts of one script more.
fn with_all(counts: Counts, verdicts: &[Claim]) -> Counts
    requires few { length verdicts.now ≤ 3 }
    requires small { (counts.yes ≤ 999000) × (counts.no ≤ 999000) × (counts.undecided ≤ 999000) }
    ensures { Adds counts (map verdict_in verdicts.now) result }
{
    let mut sum = counts;
    for i in 0..verdicts.len() {
        sum = with_one(sum, &verdicts[i]);
    }
    sum
}

/// The counts of what is said of at most 64 scripts.
pub(crate) fn counts_of(claims: &[ScriptClaims]) -> Counts
    requires few { length claims.now ≤ 64 }
    requires each { All (λ said. length said.verdicts ≤ 3) (map claims_in claims.now) }
    ensures { AreCounts (all_verdicts (map claims_in claims.now)) result }
{
    let mut sum = Counts {
        yes: 0,
        no: 0,
        undecided: 0,
    };
    for i in 0..claims.len() {
        sum = with_all(sum, claims[i].verdicts.as_slice());
    }
    sum
}
