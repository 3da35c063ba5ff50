//! Why a fault comes to no scripts.

ghost use Rattle.std.specs.Prelude.{◌≡◌};
ghost use Rattle.file_study.specs.sweeps.SweepWords.{horizon_words as words_of_horizon};

use std::fmt;

/// Why a fault of a study comes to no scripts of its line. A place is that of a choice of its swept
/// times, counted from 0; it is the first that has no script.
#[derive(Clone, Copy, Drop)]
pub enum SweepFault {
    /// More than 4,096 choices.
    TooMany,
    /// The name of a script is no plain name: it is longer than 16 bytes.
    BadName(u32),
    /// A choice that leaves the horizon; a horizon of so many ticks, of so many microseconds each,
    /// serves all choices of the fault.
    Horizon(u32, u128, u32),
    /// A script of more than 200 spans, or of what the line has not.
    NoFit(u32),
}

// The ticks that a line has at most.
const LONGEST: u128 = 4000;

impl SweepFault {
    ghost use Rattle.file_study.specs.sweeps.SweepWords.{horizon_to_write, place_of, words_of};

    /// The script that it is told of, counted from 1.
    pub fn place(&self) -> Option<u64>
        ensures { result ≡ place_of self.now }
    {
        match self {
            SweepFault::BadName(k) | SweepFault::Horizon(k, _, _) | SweepFault::NoFit(k) => {
                Some(*k as u64 + 1)
            }
            SweepFault::TooMany => None,
        }
    }

    /// What is wrong, behind `script PLACE` where there is one, and before the horizon where there is
    /// one to be written.
    pub fn words(&self) -> &'static str
        ensures { result.now ≡ words_of self.now }
    {
        match self {
            SweepFault::TooMany => "more than 4096 scripts: write sweeps with fewer values",
            SweepFault::BadName(_) => ": its name is longer than 16 bytes: write a shorter name",
            SweepFault::Horizon(_, ticks, _) => horizon_words(*ticks),
            SweepFault::NoFit(_) => ": more than 200 spans: write fewer stages",
        }
    }

    /// The horizon that serves all choices, in microseconds, where a line can have it.
    pub fn horizon_us(&self) -> Option<u128>
        ensures { result ≡ horizon_to_write self.now }
    {
        match self {
            SweepFault::Horizon(_, ticks, tick_us) if *ticks <= LONGEST => {
                Some(*ticks * *tick_us as u128)
            }
            _ => None,
        }
    }
}

fn horizon_words(ticks: u128) -> &'static str
    ensures { result.now ≡ words_of_horizon ticks }
{
    if ticks <= LONGEST {
        " leaves the horizon: write horizon = "
    } else {
        " leaves the longest horizon, of 4000 ticks: write a longer tick_us"
    }
}

impl fmt::Display for SweepFault {
    fn fmt<W: fmt::Write>(&self, f: &mut fmt::Formatter<W>) -> fmt::Result {
        if let Some(place) = self.place() {
            write!(f, "script {place}")?;
        }
        f.write_str(self.words())?;
        if let Some(us) = self.horizon_us() {
            write!(f, "\"{us} us\"")?;
        }
        Ok(())
    }
}
