//! What is told of shots.

/// What is expected of each relay; what each relay sees, one state after another; or the delay of each
/// channel.
#[derive(Clone, Copy)]
pub enum ShotsForm {
    Expected,
    States,
    Delays,
}
