//! A play whose gates are looked at.

use model_timing::Timing;
use net_gates::Compiled;
use run_signal::Level;
use run_ticks::net::Waves;

/// A play of a timing: the line with its net, the values of all gates, the timing, and which gates are
/// told, by their numbers.
#[derive(Clone, Copy)]
pub struct Play<'a> {
    pub compiled: Compiled<'a>,
    pub waves: &'a Waves<Level>,
    pub timing: &'a Timing,
    pub told: &'a [bool],
}
