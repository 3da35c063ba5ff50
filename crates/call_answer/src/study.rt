//! What most commands are over.

ghost use Rattle.std.specs.Prelude.{◌≡◌};
ghost use Rattle.net_gates.specs.{NetOf.IsNetOf, NetOfLaws.IsNetOf-prop};

use model_line::{Line, Script};
use net_gates::{Compiled, Net};

/// A line, scripts that fit it, and its net.
#[derive(Drop)]
pub struct Study {
    pub line: Line,
    pub scripts: Vec<Script>,
    pub net: Net,
    pub ghost of_line: { IsNetOf line net } by { IsNetOf-prop line net },
}

impl Study {
    /// The line with its net.
    pub fn compiled(&self) -> Compiled<'_>
        ensures line { result.line.now ≡ self.now.line }
        ensures net { result.net.now ≡ self.now.net }
    {
        Compiled {
            line: &self.line,
            net: &self.net,
        }
    }
}
