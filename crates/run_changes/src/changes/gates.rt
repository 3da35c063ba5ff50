//! What a run from change to change keeps of the gates.

use crate::changes::marks::Marks;
use crate::changes::since::Since;
use run_signal::{SealCell, Signal};
use run_step::Cell;

/// The cells of the gates, what they have taken, when they are due, which are to be looked at, and
/// their last values.
#[derive(Drop)]
pub struct Gates<C, V: Signal, P: Copy> {
    pub cells: Vec<Cell<C, SealCell<V>, P>>,
    pub sinces: Vec<Since<V>>,
    pub dues: Vec<u32>,
    pub marks: Marks,
    pub column: Vec<V>,
}
