//! What is said of a study whose faults come to no scripts.

use base_memory::Memory;
use base_text::lines::push_ms;
use base_text::pieces::push_pieces;
use file_study::sweeps::{StudySweepFault, SweepFault};

/// Appends what is wrong, and what to write.
pub fn push_sweep_words(text: &mut Vec<u8>, fault: &StudySweepFault) -> Result<(), Memory> {
    match fault {
        StudySweepFault::Refused(_, _, why) => push_fault_words(text, why),
        StudySweepFault::Twice(_, _, _) => push_pieces(
            text,
            &[
                b"another script has this name; write another name of one of the faults, which have scripts NAME-1, NAME-2 and so on where they are swept",
            ],
        ),
    }
}

fn push_fault_words(text: &mut Vec<u8>, why: &SweepFault) -> Result<(), Memory> {
    match why {
        SweepFault::TooMany => push_pieces(
            text,
            &[b"its swept times come to more than 4096 scripts; write sweeps with fewer values"],
        ),
        SweepFault::BadName(_) => push_pieces(
            text,
            &[
                b"it has scripts NAME-1, NAME-2 and so on, each of at most 16 characters; write a shorter name",
            ],
        ),
        SweepFault::Horizon(_, _, _) => push_horizon_words(text, why.horizon_us()),
        SweepFault::NoFit(_) => push_pieces(
            text,
            &[b"a script has at most 200 spans; write fewer stages"],
        ),
    }
}

fn push_horizon_words(text: &mut Vec<u8>, horizon_us: Option<u128>) -> Result<(), Memory> {
    push_pieces(
        text,
        &[b"its stages and its deadline have to end within the horizon; write "],
    )?;
    match horizon_us {
        Some(us) => {
            push_pieces(text, &[b"horizon = \""])?;
            push_ms(text, u64::try_from(us).unwrap_or(u64::MAX))?;
            push_pieces(text, &[b" ms\""])
        }
        None => push_pieces(
            text,
            &[b"a longer tick_us, since a line has at most 4000 ticks"],
        ),
    }
}
