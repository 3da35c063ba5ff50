//! What is true beyond the interval rules, where these leave an obligation open: two sets of laws
//! on which `judge_settle` and its texts rest.
//!
//! - `case_laws`: cases of an echo over spans of ticks. For each box and what is assumed there the
//!   line has one interval history, and what is shown over it rests on the box alone. That it covers
//!   each history that agrees is said by `model_fine`, of whole ticks and of their parts.
//! - `polarity_laws`: the worst corner. Where every number in a trip's cone is asked for at one end
//!   alone, one choice of the box, its delays moving, has at that trip, at every tick, exactly the
//!   rail that decides the obligation. So where the rule is not held, that choice fails.
#![tactic(auto)]

pub mod case_laws;
pub mod polarity_laws;
