//! What is suspicious.

use model_line::Place;

/// A time of a fault of a study: its start, by when it has to be tripped, or how long the stage of
/// this number lasts.
#[derive(Clone, Copy, Drop)]
pub enum SweptTime {
    Start,
    TripWithin,
    Lasts(usize),
}

/// What is suspicious, and of what: a parameter, a terminal or a script by its number, an element at
/// a terminal, or a script and a terminal.
#[derive(Clone, Copy, Drop)]
pub enum Warning {
    /// The greatest time of the parameter is not 0, and less than one tick.
    BelowTick(u32),
    /// An end of the parameter's interval is no whole number of ticks, and was rounded outward.
    Rounded(u32),
    /// No time of the parameter's interval is over within the horizon.
    PastHorizon(u32),
    /// The greatest time of the parameter's interval is not over within the horizon.
    ReachesHorizon(u32),
    /// The greatest time is more than a hundred times the least, which is not 0.
    Wide(u32),
    /// The delay of a channel is one number.
    FixedDelay(u32),
    /// The terminal is guarded, and no script shows its reverse element.
    Unguarded(u32),
    /// The terminal is weak, and no script shows its undervoltage element.
    Unechoed(u32),
    /// Some script shows the element, whose times are all 0.
    Untimed(Place),
    /// Nothing that the script shows changes.
    NothingChanges(usize),
    /// The deadline is before the first tick at which the script shows anything.
    DueFirst(usize),
    /// The script is an internal fault, and shows no current at the terminal.
    NoCurrent(usize, u32),
    /// A swept time of a fault of a study, by its number, has values between which a tick lies.
    Coarse(usize, SweptTime),
}
