//! A file of timings: its records to timings or its first fault, and timings to a file.

mod check;
mod fault;
mod fields;
mod laws;
mod named;
mod print;
mod read;
mod reading;
mod steps;

pub use fault::TimingFault;
pub use laws::{a_file_of_timings_is_short, timings_are_read_back};
pub use print::print_timings;
pub use read::read_timings;
