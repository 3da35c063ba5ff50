//! Why nothing is chosen.

ghost use Rattle.std.specs.Prelude.{◌≡◌};
ghost use Rattle.base_memory.specs.declared.stopped.Stopped.TheVariants as stopped;

use base_memory::Stopped;
use model_line::Name;

/// The first fault, in the order of the words. A setting is told by its place among them, from 0.
#[derive(Clone, Copy, Drop)]
pub enum ChooseFault {
    /// This name of the list of a setting, counted from 1, stands for no parameter.
    Unknown { place: usize, number: usize },
    /// This parameter of a setting is a delay.
    Delay { place: usize, name: Name },
}

impl From<ChooseFault> for Stopped<ChooseFault> {
    ghost from_gives = { λ fault why. why ≡ stopped.Fault fault };

    fn from(fault: ChooseFault) -> Self {
        Stopped::Fault(fault)
    }
}
