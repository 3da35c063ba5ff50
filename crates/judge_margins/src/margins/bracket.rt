//! Between which numbers the slack of an end lies.

ghost use Rattle.std.specs.Prelude.{◌≡◌, ◌≤◌};
ghost use Rattle.judge_margins.specs.margins.Brackets.{half_of, fresh_bracket, tried as tried_of};

use judge_report::Lost;

/// The obligations are held with the end moved by `near`. One tick beyond `far` this one is lost
/// first.
#[derive(Clone, Copy)]
pub struct Bracket {
    pub near: u32,
    pub far: u32,
    pub lost: Option<Lost>,
}

impl Bracket {
    /// Before anything is asked.
    pub fn fresh(slack: u32) -> Bracket
        ensures { result ≡ fresh_bracket slack }
    {
        Bracket {
            near: 0,
            far: slack,
            lost: None,
        }
    }

    /// The number to be tried next: the whole slack, or the middle, rounded up.
    pub fn tried(self, whole: bool) -> u32
        requires ordered { self.near ≤ self.far }
        requires small { self.far ≤ 4000 }
        ensures { result ≡ tried_of whole self }
    {
        if whole {
            self.far
        } else {
            (self.near + self.far + 1) / 2
        }
    }

    /// What is left where all are held at a number, or this is lost first.
    pub fn half(self, number: u32, lost: Option<Lost>) -> Bracket
        ensures { result ≡ half_of number self lost }
    {
        match lost {
            None => Bracket {
                near: number,
                far: self.far,
                lost: self.lost,
            },
            Some(lost) => Bracket {
                near: self.near,
                far: number.saturating_sub(1),
                lost: Some(lost),
            },
        }
    }
}
