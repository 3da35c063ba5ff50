//! What must be and what may be, side by side.

use crate::bits::each;

/// What must be and what may be in 64 lanes.
#[derive(Clone, Copy)]
pub struct Pair64 {
    pub must: u64,
    pub may: u64,
}

impl Pair64 {
    /// On in no lane.
    pub const OFF: Pair64 = Pair64 { must: 0, may: 0 };

    /// On in each lane, or in none.
    pub fn known(value: bool) -> Pair64 {
        Pair64 {
            must: each(value),
            may: each(value),
        }
    }

    /// The lanes in which it is not known.
    pub fn unknown(self) -> u64 {
        self.may & !self.must
    }

    /// The lanes in which another one differs, on each rail.
    pub fn turns(self, other: Pair64) -> Pair64 {
        Pair64 {
            must: self.must ^ other.must,
            may: self.may ^ other.may,
        }
    }

    /// The lanes that are on, on either rail.
    pub fn lanes(self) -> u64 {
        self.must | self.may
    }

    /// Its part in some lanes.
    pub fn within(self, lanes: u64) -> Pair64 {
        Pair64 {
            must: self.must & lanes,
            may: self.may & lanes,
        }
    }

    /// At a level in some lanes.
    pub fn with(self, on: bool, lanes: u64) -> Pair64 {
        let level = each(on) & lanes;
        Pair64 {
            must: (self.must & !lanes) | level,
            may: (self.may & !lanes) | level,
        }
    }

    /// The opposite.
    pub fn not(self) -> Pair64 {
        Pair64 {
            must: !self.may,
            may: !self.must,
        }
    }

    /// Both.
    pub fn and(self, other: Pair64) -> Pair64 {
        Pair64 {
            must: self.must & other.must,
            may: self.may & other.may,
        }
    }

    /// Either.
    pub fn or(self, other: Pair64) -> Pair64 {
        Pair64 {
            must: self.must | other.must,
            may: self.may | other.may,
        }
    }
}
