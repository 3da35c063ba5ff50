//! What is said of records of the field, and of plays, rests on these laws.
ghost use Rattle.call_pilot.specs.top.RecordLaws.{RecordLaws};

use crate::commands::each_play_has_one_text;
use cert_own::what_is_matched_is_true;
use judge_match::matching::a_file_says_records_of_the_line;

/// What a line of `match` says is true, and a play has one text, as the crates below state it.
pub fn what_is_recorded_is_true()
    ensures { RecordLaws }
{
    a_file_says_records_of_the_line();
    what_is_matched_is_true();
    each_play_has_one_text();
}
