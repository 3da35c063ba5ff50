//! The scripts that a study's faults come to, one for each choice of the swept times of each, and
//! their files, in parts of 64.
//!
//! `specs/sweeps/Choices.antt` says what a choice is, `specs/sweeps/Spans.antt` what is seen of one,
//! `specs/sweeps/Scripts.antt` its script, `specs/sweeps/Sweeps.antt` all scripts of a fault, `specs/sweeps/Studies.antt`
//! those of all faults, `specs/sweeps/Parts.antt` their parts, and
//! `specs/sweeps/Places.antt` where a script stands among those of its fault.

mod choice;
mod fault;
mod group;
mod needed;
mod parts;
mod place;
mod scripts;
mod spans;
mod study;
mod study_fault;
mod sweep;

pub use choice::{Choice, choice_at, horizon_for};
pub use fault::SweepFault;
pub use group::{Group, groups_of_scripts};
pub use needed::horizon_of;
pub use parts::{part_count, part_of, part_text};
pub use place::{Place, place_of_script};
pub use scripts::{place_name, script};
pub use study::{StudyScripts, scripts_of_study};
pub use study_fault::StudySweepFault;
pub use sweep::{count, scripts_of_fault};
