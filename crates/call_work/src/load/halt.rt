//! Why what is asked for is not done.

ghost use Rattle.std.specs.Prelude.{◌≡◌};
ghost use Rattle.call_files.specs.declared.stop.Stop.TheVariants.{Memory, Sink};
ghost use Rattle.call_work.specs.load.Halts.{status_of as end_status};
ghost use Rattle.call_work.specs.declared.load.halt.Halt.TheVariants as halt_of;

use crate::choose::ChooseDenial;
use crate::explain::ExplainFault;
use crate::load::denial::Denial;
use crate::map::MapDenial;
use base_memory::{Memory, Stopped};
use base_text::store::PutFailed;
use call_answer::Done;
use call_files::{Refusal, Stop};
use file_borders::StudyBordersFault;
use file_document::DocumentFault;
use file_study::sweeps::StudySweepFault;
use file_tables::timing::TimingFault;

/// Why it is not done: what stops `pilot` too, or what the files and the words alone deny.
#[derive(Clone, Copy)]
pub enum Halt {
    Stopped(Stop),
    Denied(Denial),
}

impl Halt {
    ghost use Rattle.call_work.specs.load.Halts.{halt_status};

    /// The exit status: that of `pilot`, 4 to 8; 5 where a study is refused, 9 where a name is
    /// unknown.
    pub fn status(&self) -> u8
        ensures is { result ≡ halt_status self.now }
    {
        match self {
            Halt::Stopped(Stop::Usage) => 4,
            Halt::Stopped(Stop::Refused(_)) => 5,
            Halt::Stopped(Stop::Store(_)) => 6,
            Halt::Stopped(Stop::Sink) => 7,
            Halt::Stopped(Stop::Memory) => 8,
            Halt::Denied(why) => why.status(),
        }
    }
}

/// The exit status of a call that ended so: 0 to 3 where it is done.
pub fn status_of(end: Result<Done, Halt>) -> u8
    ensures { result ≡ end_status end }
{
    match end {
        Ok(Done::Good) => 0,
        Ok(Done::SomeNo) => 1,
        Ok(Done::SomeUndecided) => 2,
        Ok(Done::Rejected) => 3,
        Err(halt) => halt.status(),
    }
}

impl From<Stop> for Halt {
    ghost from_gives = { λ stop halt. halt ≡ halt_of.Stopped stop };

    fn from(stop: Stop) -> Self {
        Halt::Stopped(stop)
    }
}

impl From<Denial> for Halt {
    ghost from_gives = { λ why halt. halt ≡ halt_of.Denied why };

    fn from(why: Denial) -> Self {
        Halt::Denied(why)
    }
}

impl From<Memory> for Halt {
    ghost from_gives = { λ _ halt. halt ≡ halt_of.Stopped Memory };

    fn from(_: Memory) -> Self {
        Halt::Stopped(Stop::Memory)
    }
}

impl From<PutFailed> for Halt {
    ghost from_gives = { λ _ halt. halt ≡ halt_of.Stopped Sink };

    fn from(_: PutFailed) -> Self {
        Halt::Stopped(Stop::Sink)
    }
}

impl From<Stopped<TimingFault>> for Halt {
    ghost use Rattle.call_files.specs.Stops.{stop_by};
    ghost use Rattle.call_files.specs.declared.refusal.Refusal.TheVariants as refusal;

    ghost from_gives = { λ why halt. halt ≡ halt_of.Stopped (stop_by refusal.Timings why) };

    fn from(why: Stopped<TimingFault>) -> Self {
        Halt::Stopped(Stop::from(why))
    }
}

impl From<Stopped<DocumentFault>> for Halt {
    ghost use Rattle.call_work.specs.load.Loaded.{halt_by, study_halt};

    ghost from_gives = { λ why halt. halt ≡ halt_by study_halt why };

    fn from(why: Stopped<DocumentFault>) -> Self {
        match why {
            Stopped::Fault(fault) => Halt::Denied(Denial::Study(fault)),
            Stopped::Memory => Halt::Stopped(Stop::Memory),
        }
    }
}

impl From<Stopped<ExplainFault>> for Halt {
    ghost use Rattle.call_work.specs.load.Loaded.{halt_by};
    ghost use Rattle.call_work.specs.load.Reading.{explain_halt};

    ghost from_gives = { λ why halt. halt ≡ halt_by explain_halt why };

    fn from(why: Stopped<ExplainFault>) -> Self {
        match why {
            Stopped::Fault(ExplainFault::TooManyScripts(there)) => {
                Halt::Denied(Denial::TooManyScripts { there, most: 64 })
            }
            Stopped::Fault(ExplainFault::Record(fault)) => {
                Halt::Stopped(Stop::Refused(Refusal::Record(fault)))
            }
            Stopped::Fault(ExplainFault::Unpicked(why)) => Halt::Denied(Denial::Record(why)),
            Stopped::Memory => Halt::Stopped(Stop::Memory),
        }
    }
}

impl From<Stopped<MapDenial>> for Halt {
    ghost use Rattle.call_work.specs.load.Loaded.{halt_by};
    ghost use Rattle.call_work.specs.load.Reading.{map_halt};

    ghost from_gives = { λ why halt. halt ≡ halt_by map_halt why };

    fn from(why: Stopped<MapDenial>) -> Self {
        match why {
            Stopped::Fault(denial) => Halt::Denied(Denial::Map(denial)),
            Stopped::Memory => Halt::Stopped(Stop::Memory),
        }
    }
}

impl From<Stopped<ChooseDenial>> for Halt {
    ghost use Rattle.call_work.specs.load.Loaded.{halt_by};
    ghost use Rattle.call_work.specs.load.Reading.{choose_halt};

    ghost from_gives = { λ why halt. halt ≡ halt_by choose_halt why };

    fn from(why: Stopped<ChooseDenial>) -> Self {
        match why {
            Stopped::Fault(denial) => Halt::Denied(Denial::Choose(denial)),
            Stopped::Memory => Halt::Stopped(Stop::Memory),
        }
    }
}

impl From<Stopped<StudySweepFault>> for Halt {
    ghost use Rattle.call_work.specs.load.Loaded.{halt_by, scripts_halt};

    ghost from_gives = { λ why halt. halt ≡ halt_by scripts_halt why };

    fn from(why: Stopped<StudySweepFault>) -> Self {
        match why {
            Stopped::Fault(fault) => Halt::Denied(Denial::Scripts(fault)),
            Stopped::Memory => Halt::Stopped(Stop::Memory),
        }
    }
}

impl From<Stopped<StudyBordersFault>> for Halt {
    ghost use Rattle.call_work.specs.load.Loaded.{halt_by};
    ghost use Rattle.call_work.specs.load.Studied.{times_halt};

    ghost from_gives = { λ why halt. halt ≡ halt_by times_halt why };

    fn from(why: Stopped<StudyBordersFault>) -> Self {
        match why {
            Stopped::Fault(fault) => Halt::Denied(Denial::Times(fault)),
            Stopped::Memory => Halt::Stopped(Stop::Memory),
        }
    }
}
