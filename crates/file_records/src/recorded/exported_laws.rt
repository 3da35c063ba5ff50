//! What is read of a play that was written.

ghost use Rattle.file_records.specs.recorded.ReadBack.{ConfigsAreReadBack, DataAreReadBack, PlaysAreReadBack};
ghost use Rattle.file_records.specs.recorded.Recorded.{RecordsArePlays, ScriptsShowPlays};
ghost use Rattle.file_records.specs.recorded.Told.{PlaysAreAccepted, PlaysAreTold};

use crate::recorded::laws::a_script_shows_what_is_told;

/// The configuration of a play says the line's channels with their ids, the horizon and the first
/// instant that are meant.
pub fn configurations_are_read_back()
    ensures { ConfigsAreReadBack }
{}

/// The data of a play say a sample for each tick, with the level of the signal of the channel that is
/// read.
pub fn data_are_read_back()
    ensures { DataAreReadBack }
{}

/// From both files of a play each signal is read, by the id of its channel, as its level in the play at
/// each tick.
pub fn plays_are_read_back()
    ensures { PlaysAreReadBack }
{}

/// Where each source of a map names the channel of its own signal by the id, and is read from both
/// files of a play, the tracks tell each signal as the play has it; none is refused but for want of
/// memory.
pub fn plays_are_told()
    ensures told { PlaysAreTold }
    ensures accepted { PlaysAreAccepted }
{}

/// Where the sources of a map tell all signals of a play, the script that is made of them shows at each
/// tick what the play's script shows.
pub fn scripts_show_plays()
    ensures { ScriptsShowPlays }
{
    a_script_shows_what_is_told();
}

/// Where they do, the record that is made of them is that of the play's keys and trips.
pub fn records_are_plays()
    ensures { RecordsArePlays }
{}
