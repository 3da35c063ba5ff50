//! What the script of records shows.

ghost use Rattle.file_records.specs.recorded.Shows.{ShowsWhatIsTold};

/// The script that records come to shows each element and each loss at exactly the ticks at which
/// the records tell it.
pub fn a_script_shows_what_is_told()
    ensures { ShowsWhatIsTold }
{}
