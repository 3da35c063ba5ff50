//! What a search may still spend.

/// How many boxes and timings may still be looked at.
#[derive(Drop)]
pub struct Budget {
    left: u32,
}

impl Budget {
    pub fn new(analyses: u32) -> Budget {
        Budget { left: analyses }
    }

    /// So many are looked at.
    pub fn count(&mut self, analyses: u32) {
        self.left = self.left.saturating_sub(analyses);
    }

    pub fn is_spent(&self) -> bool {
        self.left == 0
    }
}
