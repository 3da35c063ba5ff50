//! How many results of each kind a text of settled trees has.

ghost use Rattle.std.specs.Prelude.{◌≡◌, ◌+◌, ◌≤◌, ◌∷◌, [], length, map};
ghost use Rattle.std.specs.List.{All};
ghost use Rattle.cert_claims.specs.check.Counts.{Adds};
ghost use Rattle.cert_settle.specs.{Grammar.tree, Reading.result_in, Reading.results_in};
ghost use Rattle.cert_settle.specs.Counts.{is_yes_tree as yes_tree, verdict_of, CountResults};

use crate::claim::TreeClaim;
use cert_claims::check::Counts;
use judge_cases::CaseNode;

/// Whether no leaf of a tree with these nodes is undecided.
pub fn is_yes_tree(nodes: &[CaseNode]) -> bool
    ensures { result ≡ yes_tree nodes.now }
{
    nodes
        .iter()
        .all(|node| !matches!(node, CaseNode::Undecided))
}

// The counts after one result more.
fn with_one(counts: Counts, claim: &TreeClaim) -> Counts
    requires { (counts.yes ≤ 1000000) × (counts.no ≤ 1000000) × (counts.undecided ≤ 1000000) }
    ensures { Adds counts (verdict_of (result_in claim.now) ∷ []) result }
{
    match claim {
        TreeClaim::Fails { .. } => Counts {
            yes: counts.yes,
            no: counts.no + 1,
            undecided: counts.undecided,
        },
        TreeClaim::Tree(nodes) => with_tree(counts, nodes.as_slice()),
    }
}

// The counts after one tree more.
fn with_tree(counts: Counts, nodes: &[CaseNode]) -> Counts
    requires { (counts.yes ≤ 1000000) × (counts.undecided ≤ 1000000) }
    ensures { Adds counts (verdict_of (tree nodes.now) ∷ []) result }
{
    if is_yes_tree(nodes) {
        Counts {
            yes: counts.yes + 1,
            no: counts.no,
            undecided: counts.undecided,
        }
    } else {
        Counts {
            yes: counts.yes,
            no: counts.no,
            undecided: counts.undecided + 1,
        }
    }
}

// The counts after the results of one script more.
fn with_all(counts: Counts, results: &[TreeClaim]) -> Counts
    requires few { length results.now ≤ 3 }
    requires small { (counts.yes ≤ 999000) × (counts.no ≤ 999000) × (counts.undecided ≤ 999000) }
    ensures { Adds counts (map verdict_of (map result_in results.now)) result }
{
    let mut sum = counts;
    for i in 0..results.len() {
        sum = with_one(sum, &results[i]);
    }
    sum
}

/// The counts of what is said of at most 4,096 scripts.
pub(crate) fn counts_of(parts: &[Vec<TreeClaim>]) -> Counts
    requires few { length parts.now ≤ 4096 }
    requires each { All (λ results. length results ≤ 3) (map results_in parts.now) }
    ensures { CountResults (map results_in parts.now) result }
{
    let mut sum = Counts {
        yes: 0,
        no: 0,
        undecided: 0,
    };
    for i in 0..parts.len() {
        sum = with_all(sum, parts[i].as_slice());
    }
    sum
}
