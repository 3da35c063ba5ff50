//! Where bytes cease to be a TOML document.

ghost use Rattle.std.specs.Prelude.{◌≤◌, IfOk, length};

use base_memory::Memory;
use std::alloc::Global;

/// Where bytes cease to be TOML, and whether a key or a table stands there that stands before.
#[derive(Clone, Copy, Drop)]
pub struct TomlPlace {
    pub at: usize,
    pub is_twice: bool,
}

/// Where these bytes cease to be TOML; the beginning where they don't.
pub fn toml_place(alloc: Global, bytes: &[u8]) -> Result<TomlPlace, Memory>
    ensures { IfOk result (λ place. place.at ≤ length bytes.now) }
{
    match toml::table_from_slice(alloc, bytes) {
        Ok(_) => Ok(TomlPlace {
            at: 0,
            is_twice: false,
        }),
        Err(error) => match error.span() {
            Some(span) => Ok(TomlPlace {
                at: span.start.min(bytes.len()),
                is_twice: error.message() == "duplicate key",
            }),
            None => Err(Memory),
        },
    }
}
