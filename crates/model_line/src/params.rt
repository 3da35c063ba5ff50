//! Parameters of given names and intervals.

ghost use Rattle.std.specs.Prelude.{◌≡◌, length, IfOk};
ghost use Rattle.model_line.specs.Making.{AreParams};

use crate::bounds::Bounds;
use crate::line::Param;
use crate::name::Name;
use base_memory::Memory;
use std::alloc::Global;

/// The parameters of these names, each with the interval at its place.
pub fn params_of(alloc: Global, names: &[Name], bounds: &[Bounds]) -> Result<Vec<Param>, Memory>
    requires { length names.now ≡ length bounds.now }
    ensures { IfOk result (λ params. AreParams names.now bounds.now params.items) }
{
    let mut params = Vec::new(alloc);
    for (i, name) in names.iter().enumerate() {
        params.push(Param {
            name: *name,
            least: bounds[i].least,
            greatest: bounds[i].greatest,
        })?;
    }
    Ok(params)
}
