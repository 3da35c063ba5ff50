//! Why the words of an axis are refused.

ghost use Rattle.std.specs.Prelude.{◌≡◌};
ghost use Rattle.file_study.specs.times.AxisWords.{part_words, time_words as words_for, what_words};

use file_document::TimeFault;

/// One of the three numbers of an axis.
#[derive(Clone, Copy)]
pub enum Part {
    First,
    Last,
    Step,
}

/// The first fault of the words of an axis.
#[derive(Clone, Copy)]
pub enum AxisFault {
    /// There is no `=` behind the names.
    NoEquals,
    /// This name of the list, counted from 1, stands for no parameter of the line.
    Unknown(usize),
    /// There is no `..` behind the first number.
    NoLast,
    /// There is no `:` behind the last number.
    NoStep,
    /// None of the three has a unit, and this is no number of ticks.
    NoTicks(Part),
    /// The text of a time is refused.
    BadTime(Part, TimeFault),
    /// An interval or a tolerance, where a time has to be one.
    NoInstant(Part),
    /// A number above 4,000 ticks.
    Beyond(Part),
    /// A number that is no whole number of ticks.
    OffGrid(Part),
    /// The first number is after the last.
    Order,
    /// The step is 0.
    StepOfZero,
}

impl Part {
    /// `FROM`, `TO` or `STEP`.
    pub fn words(self) -> &'static str
        ensures { result.now ≡ part_words self }
    {
        match self {
            Part::First => "FROM: ",
            Part::Last => "TO: ",
            Part::Step => "STEP: ",
        }
    }
}

impl AxisFault {
    /// What is wrong, without the number of a name or the part in which it is.
    pub fn words(self) -> &'static str
        ensures { result.now ≡ what_words self }
    {
        match self {
            AxisFault::NoEquals => "no `=`: write P=FROM..TO:STEP",
            AxisFault::Unknown(_) => " of the list stands for no parameter of the line",
            AxisFault::NoLast => "no `..`: write P=FROM..TO:STEP",
            AxisFault::NoStep => "no `:`: write P=FROM..TO:STEP",
            AxisFault::NoTicks(_) => "no number of ticks; a time has a unit, as 8 ms",
            AxisFault::BadTime(_, why) => time_words(why),
            AxisFault::NoInstant(_) => "one time is needed, no interval",
            AxisFault::Beyond(_) => "more than 4000 ticks",
            AxisFault::OffGrid(_) => "no whole number of ticks",
            AxisFault::Order => "FROM is after TO",
            AxisFault::StepOfZero => "the step is 0",
        }
    }
}

// What is wrong with the text of a time.
fn time_words(fault: TimeFault) -> &'static str
    ensures { result.now ≡ words_for fault }
{
    match fault {
        TimeFault::NoValue(_) => "a tolerance has no time before it",
        TimeFault::NoNumber(_) => "no number, as 8 or 1.25",
        TimeFault::TooManyDigits(_) => "a number has more than nine digits",
        TimeFault::NoUnit(_) => "a unit is missing: all three have one, or none has",
        TimeFault::UnknownUnit(_) => "no unit: us, ms and s are",
        TimeFault::NoFrequency(_) => "cycles are no unit here: us, ms and s are",
        TimeFault::Order(_) => "the second end is below the first",
        TimeFault::NoStep(_) => "the step is 0",
        TimeFault::Surplus(_) => "something stands behind the time",
    }
}
