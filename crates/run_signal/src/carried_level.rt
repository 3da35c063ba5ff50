//! What is received of a key that is known.
#![tactic(auto)]

use crate::level::Level;
use crate::span::Tick;
use crate::{Carried, Track};
use model_history::delay_laws::one_delay_reads_one_tick;

impl Carried for Level {
    fn arrive(sent: &Track<Level>, delay: &Tick) -> Level {
        one_delay_reads_one_tick();
        let c = delay.value();
        if c <= sent.len() {
            sent.at(sent.len() - c)
        } else {
            Level::Off
        }
    }
}
