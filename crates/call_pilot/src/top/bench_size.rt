//! How many scripts a bench has.
ghost use Rattle.std.specs.Prelude.{◌≤◌};

/// A number of scripts, at most 64.
#[derive(Clone, Copy)]
pub struct BenchSize {
    pub scripts: u32,
    ghost few: { scripts ≤ 64 },
}
