//! The run of a line's net over a script tick by tick: `net`, with the value of each gate at each tick
//! kept; `cases`, under levels that are put in place of some gates' own values.
#![tactic(auto)]

pub mod cases;
pub mod net;
