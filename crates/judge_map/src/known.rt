//! What is known of an obligation.

ghost use Rattle.std.specs.Prelude.{◌≡◌};
ghost use Rattle.judge_map.specs.Known.{fails as known_to_fail, is_held as known_held, is_never_met as known_never};

/// What is known of an obligation over the intervals of a cell.
#[derive(Clone, Copy)]
pub enum Known {
    /// Every choice meets it.
    Held,
    /// Some choice fails it.
    FailsForSome,
    /// Every choice fails it.
    FailsForEvery,
    /// Neither that every choice meets it nor that some choice fails it.
    Open,
}

/// Whether it is held.
pub fn is_held(known: Known) -> bool
    ensures { result ≡ known_held known }
{
    match known {
        Known::Held => true,
        Known::FailsForSome | Known::FailsForEvery | Known::Open => false,
    }
}

/// Whether some choice fails it, or every one.
pub(crate) fn fails(known: Known) -> bool
    ensures { result ≡ known_to_fail known }
{
    match known {
        Known::FailsForSome | Known::FailsForEvery => true,
        Known::Held | Known::Open => false,
    }
}

/// Whether no choice meets it.
pub(crate) fn is_never_met(known: Known) -> bool
    ensures { result ≡ known_never known }
{
    match known {
        Known::FailsForEvery => true,
        Known::Held | Known::FailsForSome | Known::Open => false,
    }
}

/// Whether neither is known.
pub(crate) fn is_open(known: Known) -> bool {
    match known {
        Known::Open => true,
        Known::Held | Known::FailsForSome | Known::FailsForEvery => false,
    }
}
