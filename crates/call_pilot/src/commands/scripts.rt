//! The first scripts of the bench.

ghost use Rattle.std.specs.Prelude.{◌≤◌, IfOk};
ghost use Rattle.std.specs.List.{All};
ghost use Rattle.model_line.specs.{declared.line.Line.Line, Fits.Fits};
ghost use Rattle.call_pilot.specs.{commands.BenchLine.IsBenchLine, commands.BenchScripts.AreBenchScripts};

use crate::commands::script::bench_script;
use model_line::{Memory, Script};
use std::alloc::Global;

/// The faults 1 to `count`, in order.
pub fn bench_scripts(alloc: Global, count: u32) -> Result<Vec<Script>, Memory>
    requires { count ≤ 64 }
    ensures are { IfOk result (λ scripts. AreBenchScripts count scripts.items) }
    ensures fit { IfOk result (λ scripts. (line : Line) → IsBenchLine line →
        All (Fits line) scripts.items) }
{
    let mut scripts = Vec::new(alloc);
    for before in 0..count {
        let script = bench_script(alloc, before + 1)?;
        scripts.push(script)?;
    }
    Ok(scripts)
}
