//! What stands in lists.

ghost use Rattle.std.specs.Prelude.{◌<◌};

use model_line::Memory;

/// What stands at a place; the other one where the list ends before it.
pub fn at<T: Copy>(list: &[T], place: usize, other: T) -> T {
    if place < list.len() {
        list[place]
    } else {
        other
    }
}

/// Adds one at the end.
pub fn push<T: Drop>(list: &mut Vec<T>, one: T) -> Result<(), Memory> {
    list.push(one)?;
    Ok(())
}
