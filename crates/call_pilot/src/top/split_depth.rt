//! How many splits may stand above one another.
ghost use Rattle.std.specs.Prelude.{◌≤◌};

/// A number of splits, at most 8.
#[derive(Clone, Copy)]
pub struct SplitDepth {
    pub splits: u32,
    ghost few: { splits ≤ 8 },
}
