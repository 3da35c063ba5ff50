//! Timing diagrams as values: for each terminal what it sees, which channels into it are lost, what
//! it receives and makes of that, what it keys and whether it trips, as stretches of ticks; the steps
//! of moving delays; the first ticks of each trip, the inception, the deadline and the margin; and
//! the ticks that are worth looking at.

mod delay_steps;
mod diagram;
mod drawn;
mod every_choice;
mod marks;
mod rows;
mod shown;
mod stretch;
mod times;
mod trace;
mod window;

pub use delay_steps::marks_are_steps_of_delays;
pub use diagram::{Diagram, history_diagram, play_diagram};
pub use drawn::{has_marks, is_off};
pub use every_choice::every_choice_waves;
pub use marks::inception;
pub use rows::Row;
pub use shown::Shown;
pub use stretch::Stretch;
pub use times::TripTimes;
pub use trace::Trace;
pub use window::Window;
