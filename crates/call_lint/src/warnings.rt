//! What is suspicious in files that are accepted: times that look like those of another unit, settings
//! that no script tries, faults that ask for nothing. `specs/Warnings.antt` is the list of all
//! warnings, `specs/TimeTests.antt`, `ElementTests.antt`, `ScriptTests.antt` and `SweepTests.antt` say
//! when each is told.

mod all;
mod elements;
mod listed;
mod scripts;
mod sweeps;
mod times;
mod warning;

pub use all::{line_warnings, push_shown, warnings};
pub use sweeps::push_sweeps;
pub use times::most_moved;
pub use warning::{SweptTime, Warning};
