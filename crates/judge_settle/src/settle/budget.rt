//! What a search may still do.

ghost use Rattle.std.specs.Prelude.{◌≡◌, ◌<◌, ◌-◌, IsFalse};
ghost use Rattle.judge_cases.specs.Trees.{most_branches};

/// How many analyses of boxes and timings are made at most, and were made; how many parts and
/// pairs of cases may still be made; and whether one of them was made.
#[derive(Clone, Copy)]
pub struct Budget {
    pub analyses: u32,
    pub made: u32,
    pub cuts: u32,
    pub parts: bool,
    pub cases: bool,
}

impl Budget {
    /// This many analyses, and as many cuts as a tree in a text may have.
    pub fn new(analyses: u32) -> Budget
        ensures { result.cuts ≡ most_branches }
    {
        Budget {
            analyses,
            made: 0,
            cuts: 2047,
            parts: false,
            cases: false,
        }
    }

    /// Whether nothing more may be done.
    pub fn is_spent(&self) -> bool
        ensures { IsFalse result → 0 < self.now.cuts }
    {
        self.made >= self.analyses || self.cuts == 0
    }

    /// Counts analyses.
    pub fn count(&mut self, analyses: u32)
        ensures { self.new.cuts ≡ self.old.cuts }
    {
        self.made = self.made.saturating_add(analyses);
    }

    /// Counts a cut.
    pub fn cut(&mut self, case: bool)
        ensures { self.new.cuts ≡ self.old.cuts - 1 }
    {
        self.cuts = self.cuts.saturating_sub(1);
        self.parts = self.parts || !case;
        self.cases = self.cases || case;
    }
}
