//! What a warning says, and what to write or think of.

use crate::warnings::Warning;

/// The words of a warning.
pub fn warning_words(warning: Warning) -> &'static str {
    match warning {
        Warning::BelowTick(_) =>
            "less than one tick: are milliseconds written as microseconds? 2 ms are 2000",
        Warning::Rounded(_) => "what is no whole number of ticks is rounded outward, by ",
        Warning::PastHorizon(_) =>
            "it is not over within the horizon: are microseconds written as ticks (version = 2 has these), or is the horizon too short?",
        Warning::ReachesHorizon(_) =>
            "its greatest time is not over within the horizon: a longer horizon shows it",
        Warning::Wide(_) => "its ends differ more than a hundred times: are both in the same unit?",
        Warning::FixedDelay(_) =>
            "a delay of one number alone: channels have a tolerance, as [3, 5]",
        Warning::Unguarded(_) =>
            "it is guarded, and no script shows its reverse element: add a current reversal",
        Warning::Unechoed(_) =>
            "it is a weak end, and no script shows its undervoltage element: without uv it never trips by echo",
        Warning::Untimed(_) =>
            "scripts show it, and all its times are 0: give it pickup and dropout",
        Warning::NothingChanges(_) => "nothing that it shows changes within the horizon: add spans",
        Warning::DueFirst(_) =>
            "its deadline is before the first thing that it shows: deadlines count from tick 0, not from the fault",
        Warning::NoCurrent(_, _) =>
            "no current is shown at an end that has to trip: without cur a trip does not seal in",
        Warning::Coarse(_, _) => "the sweep looks at ",
    }
}

/// What a warning of a study says, whose times have units, where it is other than of a line file.
pub fn study_words(warning: Warning) -> &'static str {
    match warning {
        Warning::BelowTick(_) =>
            "less than one tick, and rounded outward: is its unit meant? A smaller tick_us keeps it",
        Warning::PastHorizon(_) =>
            "it is not over within the horizon: is its unit meant, or is the horizon too short?",
        Warning::FixedDelay(_) =>
            "a delay of one time alone: channels have a tolerance, as 3 .. 5 ms",
        Warning::DueFirst(_) => {
            "it has to be tripped before the first thing that it shows: trip_within counts from the start of the fault"
        }
        other => warning_words(other),
    }
}
