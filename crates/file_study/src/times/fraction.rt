//! Fractions, exact.

ghost use Rattle.std.specs.Prelude.{◌≡◌, ◌<◌, ◌*◌, ◌+◌, ◌^◌, ◌↔◌, IsTrue};
ghost use Rattle.file_study.specs.times.Fractions.{times, plus, less, is_at_most, IsAtMost};

/// So many of `over`, parted by `under`. It is a number where `under` is not 0.
#[derive(Clone, Copy, PartialEq, Eq, Drop)]
pub struct Fraction {
    pub over: u128,
    pub under: u128,
}

impl Fraction {
    /// The product.
    pub fn times(self, other: Fraction) -> Fraction
        requires over { self.over * other.over < 2 ^ 128 }
        requires under { self.under * other.under < 2 ^ 128 }
        ensures { result ≡ times self other }
    {
        Fraction {
            over: self.over * other.over,
            under: self.under * other.under,
        }
    }

    /// The sum.
    pub fn plus(self, other: Fraction) -> Fraction
        requires over { self.over * other.under + other.over * self.under < 2 ^ 128 }
        requires under { self.under * other.under < 2 ^ 128 }
        ensures { result ≡ plus self other }
    {
        Fraction {
            over: self.over * other.under + other.over * self.under,
            under: self.under * other.under,
        }
    }

    /// The difference; 0 where the other is greater.
    pub fn less(self, other: Fraction) -> Fraction
        requires over { self.over * other.under < 2 ^ 128 }
        requires other { other.over * self.under < 2 ^ 128 }
        requires under { self.under * other.under < 2 ^ 128 }
        ensures { result ≡ less self other }
    {
        let own = self.over * other.under;
        let others = other.over * self.under;
        Fraction {
            over: if others <= own { own - others } else { 0 },
            under: self.under * other.under,
        }
    }

    /// Whether it is at most the other.
    pub fn is_at_most(self, other: Fraction) -> bool
        requires over { self.over * other.under < 2 ^ 128 }
        requires other { other.over * self.under < 2 ^ 128 }
        ensures is { result ≡ is_at_most self other }
        ensures tells { IsTrue result ↔ IsAtMost self other }
    {
        self.over * other.under <= other.over * self.under
    }
}
