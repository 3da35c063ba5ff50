//! What is seen of a terminal, by the few ticks at which it changes.

ghost use Rattle.std.specs.Prelude.{◌<◌};

use crate::bits::holds;
use crate::lists::push;
use model_line::Memory;

/// What is seen of a terminal from a tick on.
#[derive(Clone, Copy)]
pub struct Since {
    pub tick: u32,
    /// The lanes in which it is not known whether it wants an echo.
    pub unknown: u64,
    /// The lanes in which it must key.
    pub keys: u64,
}

impl Since {
    // Whether nothing else is seen since another tick.
    fn is_as(self, other: Since) -> bool {
        self.unknown == other.unknown && self.keys == other.keys
    }
}

/// Adds what is seen, if it differs from what was seen last. At first nothing is.
pub fn push_since(list: &mut Vec<Since>, since: Since) -> Result<(), Memory> {
    let is_seen = match list.last() {
        Some(last) => since.is_as(*last),
        None => since.unknown == 0 && since.keys == 0,
    };
    if is_seen {
        return Ok(());
    }
    push(list, since)
}

/// Adds whether it must key in a lane, at each tick of a run.
pub fn push_keys(
    list: &[Since],
    lane: u32,
    horizon: u32,
    keys: &mut Vec<bool>,
) -> Result<(), Memory>
    requires { lane < 64 }
{
    let mut on = false;
    for since in list {
        keys.resize(since.tick as usize, on)?;
        on = holds(since.keys, lane);
    }
    keys.resize(horizon as usize, on)?;
    Ok(())
}
