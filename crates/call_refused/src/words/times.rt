//! What is said of faults whose times are intervals.

use base_memory::Memory;
use base_text::lines::push_ms;
use base_text::pieces::push_pieces;
use file_borders::BordersFault;

/// What to write in a study of which no stage lasts for an interval.
pub const WRITE_TIMES: &[u8] =
    b"; write one, as lasts = \"8 .. 120 ms\", without `by`, or ask `study verdicts`";

/// Appends what is wrong, and what to write.
pub fn push_borders_words(text: &mut Vec<u8>, why: &BordersFault) -> Result<(), Memory> {
    match why {
        BordersFault::Swept => push_pieces(
            text,
            &[
                b"a time of it is swept, and another is an interval; write one time in place of the sweep, or an interval in place of both",
            ],
        ),
        BordersFault::TooManyTimes => push_pieces(
            text,
            &[b"at most 3 of its stages last for intervals; write one time for the others"],
        ),
        BordersFault::ComesLate => push_pieces(
            text,
            &[
                b"an element comes when its stage may have ended; write a greater least time of that stage, or an earlier element",
            ],
        ),
        BordersFault::TooManyBorders => push_pieces(
            text,
            &[b"it has more than 100 begins and ends of what is seen; write fewer stages"],
        ),
        BordersFault::Horizon(ticks, tick_us) => push_horizon_words(text, *ticks, *tick_us),
        BordersFault::PlayedLong(_, _) => push_pieces(
            text,
            &[
                b"the line is played on for as long as its times may move, for more than 4000 ticks in all; write narrower intervals, a shorter horizon or a longer tick_us",
            ],
        ),
    }
}

fn push_horizon_words(text: &mut Vec<u8>, ticks: u128, tick_us: u32) -> Result<(), Memory> {
    push_pieces(
        text,
        &[b"its stages at their longest and its deadline have to end within the horizon; write "],
    )?;
    if ticks > 4000 {
        return push_pieces(
            text,
            &[b"a longer tick_us, since a line has at most 4000 ticks"],
        );
    }
    push_pieces(text, &[b"horizon = \""])?;
    push_ms(text, ticks as u64 * tick_us as u64)?;
    push_pieces(text, &[b" ms\""])
}
