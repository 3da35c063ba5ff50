//! A setting whose values are looked at.

ghost use Rattle.std.specs.Prelude.{◌≡◌, ◌<◌, Some, length, slice_get};

/// Parameters, by their numbers, whose intervals move together, each with its width; none is a
/// delay. A position is the least end of all of them, in ticks: they are declared at one, and
/// positions from 0 to the last one are looked at.
#[derive(Drop)]
pub struct Setting {
    pub params: Vec<u32>,
    pub declared: u32,
    pub last: u32,
}

pub fn setting_at(settings: &[Setting], i: usize) -> &Setting
    requires { i < length settings.now }
    ensures { slice_get settings.now i ≡ Some result.now }
{
    &settings[i]
}
