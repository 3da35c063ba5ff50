//! Faults of a study whose stages last for times that are not known, as scripts whose borders are not known.
//!
//! `specs/Drawn.antt` says where the borders of such a fault stand, and what is seen between them; `specs/Exact.antt`
//! what the same fault comes to where its times are numbers; `specs/Loose.antt` that at whole times both show the
//! same, and which faults are refused.
#![tactic(auto)]

mod checks;
mod drawn;
mod fault;
mod loose;
mod part;
mod room;
mod study;

pub use drawn::{At, Drawn};
pub use fault::BordersFault;
pub use loose::{LooseFault, is_loose, loose_fault};
pub use room::played_ticks;
pub use study::{StudyBordersFault, loose_faults};
