//! Pictures of a run: every gate of a net as a value change dump, for a waveform viewer.

mod changes;
mod gates;
mod identifier;
mod laws;
mod names;
mod play;
mod put;
mod variables;
mod vcd;

pub use laws::codes_are_apart;
pub use play::play_waves;
pub use vcd::{value_change_dump, vcd_text};
