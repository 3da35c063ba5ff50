//! What a text of settled trees says of an obligation.

use judge_cases::CaseNode;
use model_timing::Step;
use run_signal::Tick;

/// The result of an obligation, which is a script at a terminal, as a text claims it: a tree, its
/// nodes in preorder; or the timing at which the obligation fails, the steps of its delays,
/// ascending by delay and tick, and one number for each parameter.
#[derive(Drop)]
pub enum TreeClaim {
    Tree(Vec<CaseNode>),
    Fails {
        steps: Vec<Step<Tick>>,
        numbers: Vec<u32>,
    },
}
