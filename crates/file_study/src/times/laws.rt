//! Laws of times.

ghost use Rattle.std.specs.Prelude.{◌≡◌, ◌<◌, ◌+◌, ◌-◌, ◌*◌, ◌/◌, ◌^◌, ◌++◌, ℕ, List, []};
ghost use Rattle.std.specs.Prelude.{Option, Ok, codes};
ghost use Rattle.std.specs.{Fmt.decimal};
ghost use Rattle.file_study.specs.declared.times.time.Interval.{Interval};
ghost use Rattle.file_study.specs.declared.times.time.Time.TheVariants as time;
ghost use Rattle.file_study.specs.{times.Words.word_of, times.Times.time_of, times.Times.interval};
ghost use Rattle.file_study.specs.{times.Units.whole};
ghost use Rattle.file_study.specs.times.Rounding.{IsRoundedDown, IsRoundedUp};

/// A text of two words, a number and a unit, has no tolerance: its ends are equal.
pub fn a_time_without_a_tolerance_has_equal_ends()
    ensures { (hertz : Option ℕ) (text : List ℕ) (ends : Interval) → word_of text 2 ≡ [] →
        time_of hertz text ≡ Ok (time.Interval ends) → ends.least ≡ ends.greatest }
{}

/// Whole microseconds are rounded as a line file of version 2 says: the least end is divided by the
/// tick and rounded down, the greatest divided and rounded up.
pub fn whole_microseconds_are_rounded_as_in_a_line_file()
    ensures down { (tick_us n : ℕ) → 0 < tick_us → IsRoundedDown tick_us (whole n) (n / tick_us) }
    ensures up { (tick_us n : ℕ) → 0 < tick_us →
        IsRoundedUp tick_us (whole n) ((n + (tick_us - 1)) / tick_us) }
{}

/// A whole number of milliseconds, or of microseconds, is read back from its text.
pub fn whole_numbers_of_a_unit_are_read_back()
    ensures milliseconds { (hertz : Option ℕ) (n : ℕ) → n < 10 ^ 9 →
        time_of hertz (decimal n ++ codes " ms")
        ≡ Ok (interval (whole (n * 1000)) (whole (n * 1000))) }
    ensures microseconds { (hertz : Option ℕ) (n : ℕ) → n < 10 ^ 9 →
        time_of hertz (decimal n ++ codes " us") ≡ Ok (interval (whole n) (whole n)) }
{}
