//! The laws of timings.

ghost use Rattle.std.specs.Prelude.{◌≡◌, ◌≤◌, ◌+◌, ◌*◌, ℕ, List, [], ◌∷◌, IsTrue, length};
ghost use Rattle.std.specs.List.{All};
ghost use Rattle.model_line.specs.declared.line.Line.{Line};
ghost use Rattle.model_line.specs.PlainNames.{is_plain_name};
ghost use Rattle.model_logic.specs.Choice.{Choice, IsInside};
ghost use Rattle.model_timing.specs.{NamedValues.NamedValues, Timing.TimingValues};
ghost use Rattle.model_timing.specs.Choice.{timing_choice, IsSameChoice};
ghost use Rattle.file_tables.specs.timing.Printed.{MayStand, AreOfOneFile, file_records};
ghost use Rattle.file_tables.specs.timing.Printed.{steps_in};
ghost use Rattle.file_tables.specs.script.Printed.{records_text};
ghost use Rattle.file_tables.specs.timing.Timings.{timings_in, timings_of};

use model_line::laws::{
    declared_intervals_are_in_order, delays_are_parameters, parameters_are_numbered,
    settings_are_counted,
};
use model_names::name_laws::parameters_have_names_of_their_own;
use model_timing::each_choice_inside_is_a_timing;

/// The records of timings, and their text, are read back as the timings, so each choice of delays inside the
/// declared intervals is, over the run, that of a timing that a file holds, under any plain name.
pub fn timings_are_read_back()
    ensures records { (line : Line) (timings : List NamedValues) →
        All (MayStand line) timings → AreOfOneFile timings →
        timings_in line (file_records line timings) ≡ Ok timings }
    // And so are the bytes of their file.
    ensures bytes { (line : Line) (timings : List NamedValues) →
        All (MayStand line) timings → AreOfOneFile timings →
        timings_of line (records_text (file_records line timings)) ≡ Ok timings }
    ensures choices { (line : Line) (choice : Choice) (name : List ℕ) → IsInside line choice →
        IsTrue (is_plain_name name) →
        (timing : TimingValues) × IsSameChoice line choice (timing_choice line timing)
        × (timings_in line (file_records line (record { name = name; timing = timing } ∷ []))
        ≡ Ok (record { name = name; timing = timing } ∷ [])) }
{
    parameters_have_names_of_their_own();
    each_choice_inside_is_a_timing();
    delays_are_parameters();
}

/// A file of timings is as long as its timings and steps make it. So one of at most two timings, or of
/// at most 61,000 steps in all, is no longer than a file of timings may be.
pub fn a_file_of_timings_is_short()
    ensures length { (line : Line) (timings : List NamedValues) → All (MayStand line) timings →
        length (records_text (file_records line timings))
        ≤ 23 + 4681 * length timings + 67 * steps_in timings }
    // A timing has at most 24,000 steps.
    ensures steps { (line : Line) (timings : List NamedValues) → All (MayStand line) timings →
        steps_in timings ≤ 24000 * length timings }
    ensures two { (line : Line) (timings : List NamedValues) → All (MayStand line) timings →
        length timings ≤ 2 → length (records_text (file_records line timings)) ≤ 4194304 }
    ensures few_steps { (line : Line) (timings : List NamedValues) → All (MayStand line) timings →
        length timings ≤ 16 → steps_in timings ≤ 61000 →
        length (records_text (file_records line timings)) ≤ 4194304 }
{
    declared_intervals_are_in_order();
    delays_are_parameters();
    parameters_are_numbered();
    settings_are_counted();
}
