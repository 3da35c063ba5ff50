//! The numbers of a timing, as a text has them.

ghost use Rattle.std.specs.Prelude.{◌≡◌, IfOk};

use model_line::Memory;
use run_signal::Tick;
use std::alloc::Global;

/// The numbers of ticks.
pub fn numbers_of(alloc: Global, values: &[Tick]) -> Result<Vec<u32>, Memory>
    ensures { IfOk result (λ numbers. numbers.items ≡ values.now) }
{
    let mut numbers = Vec::with_capacity(alloc, values.len())?;
    for value in values {
        numbers.push(value.value())?;
    }
    Ok(numbers)
}
