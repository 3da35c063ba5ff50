//! What is found of faults.

ghost use Rattle.std.specs.Prelude.{◌≡◌};
ghost use Rattle.call_times.specs.Times.{and_found, found_of as found_by, nothing as nothing_found};

use judge_times::Along;

/// Whether something fails, and whether something is open.
#[derive(Clone, Copy)]
pub struct Found {
    pub some_fails: bool,
    pub some_open: bool,
}

/// Nothing fails, and nothing is open.
pub(crate) fn nothing() -> Found
    ensures { result ≡ nothing_found }
{
    Found {
        some_fails: false,
        some_open: false,
    }
}

/// What is found of a stretch.
pub(crate) fn found_of(told: Along) -> Found
    ensures { result ≡ found_by told }
{
    match told {
        Along::Held => nothing(),
        Along::Fails => Found {
            some_fails: true,
            some_open: false,
        },
        Along::Open => Found {
            some_fails: false,
            some_open: true,
        },
    }
}

/// What is found of two things.
pub(crate) fn both(one: Found, other: Found) -> Found
    ensures { result ≡ and_found one other }
{
    Found {
        some_fails: one.some_fails || other.some_fails,
        some_open: one.some_open || other.some_open,
    }
}
