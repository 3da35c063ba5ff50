//! What is answered.

ghost use Rattle.std.specs.Prelude.{◌≡◌};
ghost use Rattle.call_lint.specs.lint.Outcomes.{status_of, outcome_of};
ghost use Rattle.call_lint.specs.declared.lint.linted.Outcome.TheVariants as outcome;

use crate::warnings::Warning;
use std::alloc::Global;

/// What was found in the files.
#[derive(Clone, Copy, Drop)]
pub enum Outcome {
    /// They are accepted, and nothing is suspicious.
    Clean,
    /// They are accepted, and something is.
    Suspicious,
    /// A file is refused.
    Refused,
}

impl Outcome {
    /// The exit status: 0, 2 or 3.
    pub fn status(self) -> u8
        ensures { result ≡ status_of self }
    {
        match self {
            Outcome::Clean => 0,
            Outcome::Suspicious => 2,
            Outcome::Refused => 3,
        }
    }
}

/// What was found, and the text that says it.
#[derive(Drop)]
pub struct Linted {
    pub outcome: Outcome,
    pub text: Vec<u8>,
}

impl Linted {
    ghost use Rattle.std.specs.Prelude.{[]};

    /// Nothing is suspicious.
    pub fn clean(alloc: Global) -> Self
        ensures found { result.outcome ≡ outcome.Clean }
        ensures silent { result.text.items ≡ [] }
    {
        Linted {
            outcome: Outcome::Clean,
            text: Vec::new(alloc),
        }
    }

    /// A file is refused, as this line tells.
    pub fn refused(line: Vec<u8>) -> Self
        ensures found { result.outcome ≡ outcome.Refused }
        ensures told { result.text.items ≡ line.items }
    {
        Linted {
            outcome: Outcome::Refused,
            text: line,
        }
    }

    /// Something is suspicious, as these lines tell.
    pub fn suspicious(lines: Vec<u8>) -> Self
        ensures { result.outcome ≡ outcome.Suspicious }
    {
        Linted {
            outcome: Outcome::Suspicious,
            text: lines,
        }
    }
}

/// What was found in files that are accepted, of which these are the warnings.
pub fn outcome_of(warnings: &[Warning]) -> Outcome
    ensures { result ≡ outcome_of warnings.now }
{
    if warnings.is_empty() {
        Outcome::Clean
    } else {
        Outcome::Suspicious
    }
}
