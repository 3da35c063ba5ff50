//! A record's two files, and why they have no levels at ticks.

use crate::config::{DateOrder, Form};
use crate::fault::{ConfigFault, DataFault};
use crate::ticks::TickFault;
use base_memory::Stopped;

/// The bytes of a record's two files.
#[derive(Clone, Copy)]
pub struct Files<'a> {
    /// The order in its dates, where it is not that of the revision.
    pub dates: Option<DateOrder>,
    pub config: &'a [u8],
    pub samples: &'a [u8],
}

/// Why a record has no levels at the ticks.
#[derive(Clone, Copy, Drop)]
pub enum RecordFault {
    Config(ConfigFault),
    /// No digital channel has the id.
    NoChannel,
    /// More than one has it.
    ManyChannels,
    /// In data of this form.
    Data { form: Form, why: DataFault },
    Ticks(TickFault),
}

impl RecordFault {
    ghost use Rattle.std.specs.Prelude.{◌≡◌};
    ghost use Rattle.file_comtrade.specs.Record.{seen_as};
    ghost use Rattle.file_comtrade.specs.declared.record.RecordFault.TheVariants as fault;

    /// Why a record has none, where that of its configuration is known.
    pub fn of_config(why: Stopped<ConfigFault>) -> Stopped<RecordFault>
        ensures { result ≡ seen_as (λ f. fault.Config f) why }
    {
        match why {
            Stopped::Fault(fault) => Stopped::Fault(RecordFault::Config(fault)),
            Stopped::Memory => Stopped::Memory,
        }
    }

    /// The same of its data, which have this form.
    pub fn of_data(form: Form, why: Stopped<DataFault>) -> Stopped<RecordFault>
        ensures { result ≡ seen_as (λ f. fault.Data form f) why }
    {
        match why {
            Stopped::Fault(why) => Stopped::Fault(RecordFault::Data { form, why }),
            Stopped::Memory => Stopped::Memory,
        }
    }

    /// The same of its samples at the ticks.
    pub fn of_ticks(why: Stopped<TickFault>) -> Stopped<RecordFault>
        ensures { result ≡ seen_as (λ f. fault.Ticks f) why }
    {
        match why {
            Stopped::Fault(fault) => Stopped::Fault(RecordFault::Ticks(fault)),
            Stopped::Memory => Stopped::Memory,
        }
    }
}

impl From<RecordFault> for Stopped<RecordFault> {
    ghost use Rattle.std.specs.Prelude.{◌≡◌};
    ghost use Rattle.base_memory.specs.declared.stopped.Stopped.TheVariants as stopped;

    ghost from_gives = { λ fault why. why ≡ stopped.Fault fault };

    fn from(fault: RecordFault) -> Self {
        Stopped::Fault(fault)
    }
}
