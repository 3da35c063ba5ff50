//! What is assumed of a history.

ghost use Rattle.std.specs.Prelude.{◌≡◌};

use std::marker::Model;

/// The terminal wants an echo throughout the ticks from `from` on, before `to`; or it does not at some
/// instant of them. Contracts see the assumption.
#[derive(Clone, Copy)]
pub struct Assumed {
    terminal: u32,
    from: u32,
    to: u32,
    throughout: bool,
}

impl Model for Assumed {
    ghost use Rattle.model_settle.specs.Assumed.{Assumption};
    ghost use Rattle.judge_cases.specs.AssumedAt.{assumed_at};

    ghost Value = { Assumption };

    ghost use Rattle.judge_cases.specs.AssumedParts.{parts_of, parts_back};

    ghost view = { λ a. assumed_at a.terminal a.from a.to a.throughout };

    ghost inverse = { parts_of };

    ghost inverse_ok = { λ a h. parts_back a.terminal a.from a.to a.throughout };
}

impl Assumed {
    ghost use Rattle.judge_cases.specs.AssumedAt.{assumed_at};

    pub fn new(terminal: u32, from: u32, to: u32, throughout: bool) -> Assumed
        ensures { result ≡ assumed_at terminal from to throughout }
    {
        Assumed {
            terminal,
            from,
            to,
            throughout,
        }
    }

    /// The parts of the assumption.
    pub fn parts(&self) -> (u32, u32, u32, bool)
        ensures { self.now ≡ assumed_at result.0 result.1 result.2 result.3 }
    {
        (self.terminal, self.from, self.to, self.throughout)
    }
}
