//! What was found of several obligations.
ghost use Rattle.std.specs.Prelude.{◌≡◌, ◌||◌};
ghost use Rattle.call_answer.specs.Answers.{status_by};

use call_answer::Done;

/// Whether some obligation fails, and whether some is open.
#[derive(Clone, Copy)]
pub struct Found {
    pub some_no: bool,
    pub some_open: bool,
}

/// Nothing is found yet.
pub const NOTHING: Found = Found {
    some_no: false,
    some_open: false,
};

impl Found {
    /// 1 where something fails; else 2 where something is open; else 0.
    pub fn status(self) -> Done
        ensures { result ≡ status_by self.some_no self.some_open }
    {
        if self.some_no {
            Done::SomeNo
        } else if self.some_open {
            Done::SomeUndecided
        } else {
            Done::Good
        }
    }

    /// What is found of these obligations and others.
    pub fn and(self, other: Found) -> Found
        ensures no { result.some_no ≡ self.some_no || other.some_no }
        ensures undecided { result.some_open ≡ self.some_open || other.some_open }
    {
        Found {
            some_no: self.some_no || other.some_no,
            some_open: self.some_open || other.some_open,
        }
    }
}
