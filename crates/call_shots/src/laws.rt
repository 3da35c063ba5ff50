//! What a window says is true.

ghost use Rattle.call_shots.specs.Truths.{WindowsAreTrue};

use model_fine::fine_laws::fine_histories_are_covered;
use model_logic::laws::{each_box_has_one_interval_history, each_line_has_a_choice_inside};
use run_waves::waves::the_first_tick_is_the_least;

/// Whatever the times are within the declared intervals, fractions of a tick included, a relay keys and
/// trips inside its windows.
pub fn windows_are_true()
    ensures { WindowsAreTrue }
{
    each_line_has_a_choice_inside();
    each_box_has_one_interval_history();
    fine_histories_are_covered();
    the_first_tick_is_the_least();
}
