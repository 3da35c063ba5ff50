//! Where a script stands among those of its fault.

ghost use Rattle.std.specs.Prelude.{◌≡◌, ◌<◌, IfSome, length, option_map};
ghost use Rattle.file_study.specs.sweeps.Places.{place_in, place_values};

use crate::sweeps::group::Group;

/// A fault, and a place among its scripts, counted from 0.
#[derive(Clone, Copy)]
pub struct Place<'a> {
    pub group: &'a Group,
    pub at: usize,
}

/// The fault and the place of a script, if the groups have as many.
pub fn place_of_script<'a>(groups: &'a [Group], script: usize) -> Option<Place<'a>>
    ensures is { option_map place_values result ≡ place_in groups.now script }
    ensures within { IfSome result (λ p. p.at < length p.group.now.swept.items) }
{
    let mut left = script;
    for i in 0..groups.len() {
        let count = groups[i].swept.len();
        if left < count {
            return Some(Place {
                group: &groups[i],
                at: left,
            });
        }
        left -= count;
    }
    None
}
